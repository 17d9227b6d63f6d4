// Open files that stand on a file of a lower layer turn to its copy in the upper one.
ghost use Rattle.std.specs.Prelude.{◌≡◌};
ghost use Rattle.std.specs.FinMap.{entries};
ghost use Rattle.vfs_tree.specs.Place.{UnionUp};
ghost use Rattle.call_model.specs.Effects.{each, turned, turned_open};
ghost use Rattle.plain_effects.specs.Entries.{changed_at};
ghost use Rattle.plain_effects.specs.Turns.{is_turned};

use crate::entries::pair_at;
use finite_maps::PairMap;
use vfs_tree::{Open, Place, View};

/// Whether a place is one of a union's lower layer, and the same as the other.
fn is_turned(from: &Place, place: &Place) -> bool
    ensures { result ≡ is_turned from.now place.now }
{
    match &place.view {
        View::UnionLow { .. } => from.same(place),
        View::Mem { .. } => false,
        View::Null { .. } => false,
        View::UnionUp { .. } => false,
    }
}

/// A file of a union's lower layer is seen in the upper one from now on, where the place stands on it.
fn turn(place: &mut Place, from: &Place, mount: u32, ino: u32)
    ensures { place.new ≡ turned from.now (UnionUp mount ino) place.old }
{
    if is_turned(from, place) {
        *place = Place::union_up(mount, ino);
        return;
    }
    match &mut place.view {
        View::Null { lower, .. } => turn(lower, from, mount, ino),
        View::UnionLow { lower, .. } => turn(lower, from, mount, ino),
        View::Mem { .. } => (),
        View::UnionUp { .. } => (),
    }
}

/// The place of an open file turns.
fn turn_open(opened: &mut Open, from: &Place, mount: u32, ino: u32)
    ensures { opened.new ≡ turned_open from.now (UnionUp mount ino) opened.old }
{
    turn(&mut opened.place, from, mount, ino);
}

/// The place of the open file at an index turns.
fn turn_at(opens: &mut PairMap<Open>, at: usize, from: &Place, mount: u32, ino: u32)
    ensures { entries opens.new ≡ changed_at at (turned_open from.now (UnionUp mount ino)) (entries opens.old) }
{
    match pair_at(opens, at) {
        Some(key) => match opens.get_mut(key) {
            Some(opened) => turn_open(opened, from, mount, ino),
            None => (),
        },
        None => (),
    }
}

/// The place of each open file turns.
pub(crate) fn turn_opens(opens: &mut PairMap<Open>, from: &Place, mount: u32, ino: u32)
    ensures { opens.new ≡ each (turned_open from.now (UnionUp mount ino)) opens.old }
{
    for at in 0..opens.len() {
        turn_at(opens, at, from, mount, ino);
    }
}
