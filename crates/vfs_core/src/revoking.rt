// A revoke dooms each open file that rests on the node of its file.
ghost use Rattle.std.specs.Prelude.{◌≡◌, ◌∷◌, ◌++◌, [], ◌+◌, ◌≤◌, None, option_map};
ghost use Rattle.vfs_tree.specs.Layers as layers;
ghost use Rattle.vfs_tree.specs.Nodes.{IsNumbered};
ghost use Rattle.vfs_tree.specs.Views.{facts_of};
ghost use Rattle.call_model.specs.Effects.{doomed};
ghost use Rattle.call_model.specs.Refs.{place_of};
ghost use Rattle.call_laws.specs.Live.{live};
ghost use Rattle.call_laws.specs.Revoking.{first_open_on};
ghost use Rattle.vfs_core.specs.Coming.{DoomsAll};

use crate::ledger::Ledger;
use call_model::{Entry, Inner, Ref};
use plain_effects::doom;
use plain_mounts::first_open;
use vfs_paths::base;
use vfs_tree::{NodeId, World};

/// The node on which the place of a reference rests. `None` comes exactly where the reference isn't there.
pub fn node_under(world: &World, at: Ref) -> Option<NodeId>
    ensures { result ≡ option_map (layers.base (facts_of world.now)) (place_of world.now at) }
{
    match at {
        Ref::Fd { caller, fd } => match world.opens.get((caller, fd)) {
            Some(opened) => Some(base(world, &opened.place)),
            None => None,
        },
        Ref::Cwd { caller } => match world.cwds.get(caller) {
            Some(cwd) => Some(base(world, &cwd.place)),
            None => None,
        },
    }
}

/// Dooms a reference, and enters that.
pub fn enter_doom(world: &mut World, history: &mut Ledger, caller: u32, at: Ref)
    requires numbered { IsNumbered world.old }
    requires room { 1 ≤ history.old.spare }
    ensures doomed { world.new ≡ doomed world.old at }
    ensures entered { history.new.entries ≡ history.old.entries ++ Entry.Inner caller (Inner.Doom at) ∷ [] }
    ensures spare { history.new.spare + 1 ≡ history.old.spare }
    ensures kept { IsNumbered world.new }
{
    doom(world, &at);
    history.push(Entry::Inner {
        caller,
        what: Inner::Doom { at },
    });
}

/// Dooms the live open files on a node, one after the other, and enters each doom.
pub fn doom_open(world: &mut World, history: &mut Ledger, caller: u32, node: NodeId)
    requires numbered { IsNumbered world.old }
    requires room { live world.old ≤ history.old.spare }
    ensures dooms { DoomsAll node caller world.old world.new history.old history.new }
    ensures all { first_open_on world.new node ≡ None }
    ensures kept { IsNumbered world.new }
{
    while let Some(at) = first_open(world, node) {
        enter_doom(world, history, caller, at);
    }
}
