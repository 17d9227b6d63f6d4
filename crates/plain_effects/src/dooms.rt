// What is open at a place becomes dead.
ghost use Rattle.std.specs.Prelude.{◌≡◌, true, option_map};
ghost use Rattle.std.specs.FinMap.{entries};
ghost use Rattle.std.specs.FinMap as map;
ghost use Rattle.vfs_tree.specs.Place.{Mem};
ghost use Rattle.call_model.specs.Effects.{each, doomed_open, doomed_cwd, doomed_place, doomed};
ghost use Rattle.plain_effects.specs.Entries.{changed_at, changed_key};

use crate::entries::{number_at, pair_at};
use call_model::Ref;
use finite_maps::{NumberMap, PairMap};
use std::mem;
use vfs_tree::{Cwd, Open, Place, World};

/// An open file becomes dead, where it has the place.
fn doom_open(opened: &mut Open, place: &Place)
    ensures { opened.new ≡ doomed_open place.now opened.old }
{
    if place.same(&opened.place) {
        opened.dead = true;
    }
}

/// The open file at an index becomes dead, where it has the place.
fn doom_open_at(opens: &mut PairMap<Open>, at: usize, place: &Place)
    ensures { entries opens.new ≡ changed_at at (doomed_open place.now) (entries opens.old) }
{
    match pair_at(opens, at) {
        Some(key) => match opens.get_mut(key) {
            Some(opened) => doom_open(opened, place),
            None => (),
        },
        None => (),
    }
}

/// Each open file with the place becomes dead.
fn doom_opens(opens: &mut PairMap<Open>, place: &Place)
    ensures { opens.new ≡ each (doomed_open place.now) opens.old }
{
    for at in 0..opens.len() {
        doom_open_at(opens, at, place);
    }
}

/// A current directory becomes dead, where it has the place.
fn doom_cwd(cwd: &mut Cwd, place: &Place)
    ensures { cwd.new ≡ doomed_cwd place.now cwd.old }
{
    if place.same(&cwd.place) {
        cwd.dead = true;
    }
}

/// The current directory at an index becomes dead, where it has the place.
fn doom_cwd_at(cwds: &mut NumberMap<Cwd>, at: usize, place: &Place)
    ensures { entries cwds.new ≡ changed_at at (doomed_cwd place.now) (entries cwds.old) }
{
    match number_at(cwds, at) {
        Some(key) => match cwds.get_mut(key) {
            Some(cwd) => doom_cwd(cwd, place),
            None => (),
        },
        None => (),
    }
}

/// Each current directory with the place becomes dead.
fn doom_cwds(cwds: &mut NumberMap<Cwd>, place: &Place)
    ensures { cwds.new ≡ each (doomed_cwd place.now) cwds.old }
{
    for at in 0..cwds.len() {
        doom_cwd_at(cwds, at, place);
    }
}

/// Takes the place of an open file out, and leaves the root of mount 0. `None` comes exactly where it isn't there.
fn take_place(opens: &mut PairMap<Open>, key: (u32, u32)) -> Option<Place>
    ensures place { result ≡ option_map (λ o. o.place) (map.get opens.old key) }
    ensures left { opens.new ≡ changed_key (λ o. record o { place = Mem 0 1 }) opens.old key (map.get opens.old key) }
{
    match opens.get_mut(key) {
        Some(opened) => Some(mem::replace(&mut opened.place, Place::mem(0, 1))),
        None => None,
    }
}

/// Gives an open file its place back, as a dead one.
fn give_place(opens: &mut PairMap<Open>, key: (u32, u32), place: Place)
    ensures { opens.new ≡ changed_key (λ o. record o { place = place; dead = true }) opens.old key (map.get opens.old key) }
{
    match opens.get_mut(key) {
        Some(opened) => {
            opened.place = place;
            opened.dead = true;
        }
        None => (),
    }
}

/// Takes the place of a current directory out, and leaves the root of mount 0. `None` comes exactly where it isn't there.
fn take_cwd(cwds: &mut NumberMap<Cwd>, caller: u32) -> Option<Place>
    ensures place { result ≡ option_map (λ d. d.place) (map.get cwds.old caller) }
    ensures left { cwds.new ≡ changed_key (λ d. record d { place = Mem 0 1 }) cwds.old caller (map.get cwds.old caller) }
{
    match cwds.get_mut(caller) {
        Some(cwd) => Some(mem::replace(&mut cwd.place, Place::mem(0, 1))),
        None => None,
    }
}

/// Gives a current directory its place back, as a dead one.
fn give_cwd(cwds: &mut NumberMap<Cwd>, caller: u32, place: Place)
    ensures { cwds.new ≡ changed_key (λ d. record d { place = place; dead = true }) cwds.old caller (map.get cwds.old caller) }
{
    match cwds.get_mut(caller) {
        Some(cwd) => {
            cwd.place = place;
            cwd.dead = true;
        }
        None => (),
    }
}

/// What has the place of an open file becomes dead. The place is taken out as long as the others are compared with it.
fn doom_as_open(world: &mut World, key: (u32, u32))
    ensures { world.new ≡ doomed_place world.old (option_map (λ o. o.place) (map.get world.old.opens key)) }
{
    match take_place(&mut world.opens, key) {
        Some(place) => {
            doom_opens(&mut world.opens, &place);
            doom_cwds(&mut world.cwds, &place);
            give_place(&mut world.opens, key, place);
        }
        None => (),
    }
}

/// What has the place of a current directory becomes dead. The place is taken out as long as the others are compared with
/// it.
fn doom_as_cwd(world: &mut World, caller: u32)
    ensures { world.new ≡ doomed_place world.old (option_map (λ d. d.place) (map.get world.old.cwds caller)) }
{
    match take_cwd(&mut world.cwds, caller) {
        Some(place) => {
            doom_opens(&mut world.opens, &place);
            doom_cwds(&mut world.cwds, &place);
            give_cwd(&mut world.cwds, caller, place);
        }
        None => (),
    }
}

/// What is open at the place of a reference becomes dead: each open file and current directory with the same place.
pub fn doom(world: &mut World, at: &Ref)
    ensures { world.new ≡ doomed world.old at.now }
{
    match at {
        Ref::Fd { caller, fd } => doom_as_open(world, (*caller, *fd)),
        Ref::Cwd { caller } => doom_as_cwd(world, *caller),
    }
}
