ghost use Rattle.std.specs.Prelude.{◌≡◌, OnOk, OnErr};
ghost use Rattle.std.specs.FinMap as map;
ghost use Rattle.vfs_tree.specs.Edits.{with_store};
ghost use Rattle.vfs_tree.specs.FileEdits.{resized};
ghost use Rattle.vfs_tree.specs.Nodes.{IsNumbered};
ghost use Rattle.call_model.specs.DataRows as rows;
ghost use Rattle.plain_checks.specs.Coming.{Answers, Comes};

use crate::descriptors::descriptor;
use finite_maps::Duplicate;
use plain_checks::{Answer, Stop, copied, made, place_at};
use std::alloc::{AllocError, Global};
use vfs_paths::{base, is_dir};
use vfs_tree::{Errno, Found, NodeId, Place, World};

/// Gives the file at a node a length. The only fault is want of memory.
pub(crate) fn resize_node(world: &mut World, at: NodeId, len: u32) -> Result<(), AllocError>
    requires { IsNumbered world.old }
    ensures resized { OnOk result (world.new ≡ with_store (λ t. resized t at.ino len) world.old at.store (map.get world.old.stores at.store)) }
    ensures err { OnErr result (world.new ≡ world.old) }
    ensures kept { IsNumbered world.new }
{
    match world.stores.get_mut(at.store) {
        Some(store) => match store.resize(at.ino, len as usize) {
            Ok(()) => Ok(()),
            Err(error) => Err(error),
        },
        None => Ok(()),
    }
}

/// Gives a file a length. The only fault is want of memory.
pub fn resize_at(world: &mut World, place: &Place, len: u32) -> Result<(), AllocError>
    requires { IsNumbered world.old }
    ensures resized { OnOk result (world.new ≡ rows.resize_at world.old place.now len) }
    ensures err { OnErr result (world.new ≡ world.old) }
    ensures kept { IsNumbered world.new }
{
    let at = base(world, place);
    resize_node(world, at, len)
}

/// Why a file at a place can't get a length: EISDIR, or EFBIG over 1,048,576 bytes.
#[tactic(auto, using(plain_checks::proofs::Binding::stops, plain_checks::proofs::Binding::goes))]
fn check_length(alloc: Global, world: &World, place: &Place, len: u32) -> Result<(), Stop>
    ensures { Comes (rows.check_length world.now place.now len) result }
{
    if is_dir(world, place) {
        return Err(Stop::Refused {
            errno: Errno::EISDIR,
        });
    }
    if len > 1_048_576 {
        return Err(Stop::Refused {
            errno: Errno::EFBIG,
        });
    }
    copied(alloc, world, place)
}

/// truncate(2).
#[tactic(auto, using(plain_checks::proofs::Binding::stops_answer, plain_checks::proofs::Binding::goes_answer, plain_checks::proofs::Binding::kept_answer))]
pub fn truncate(alloc: Global, world: &mut World, found: Found, len: u32) -> Result<Answer, Stop>
    requires { IsNumbered world.old }
    ensures answered { Answers (rows.truncate world.old found len) world.old world.new result }
    ensures kept { IsNumbered world.new }
{
    let place = place_at(world, found)?;
    check_length(alloc, world, &place, len)?;
    made(resize_at(world, &place, len))?;
    Ok(Answer::done())
}

/// The place of a descriptor whose file may get a length.
#[tactic(auto, using(plain_checks::proofs::Binding::stops, plain_checks::proofs::Binding::goes, plain_checks::proofs::Binding::lacks))]
fn open_file(alloc: Global, world: &World, caller: u32, fd: u32, len: u32) -> Result<Place, Stop>
    ensures { Comes (rows.open_length world.now caller fd len) result }
{
    let open = descriptor(world, caller, fd)?;
    if open.dead {
        return Err(Stop::Refused {
            errno: Errno::EBADF,
        });
    }
    if !open.mode.write {
        return Err(Stop::Refused {
            errno: Errno::EINVAL,
        });
    }
    if len > 1_048_576 {
        return Err(Stop::Refused {
            errno: Errno::EFBIG,
        });
    }
    match open.place.duplicate(alloc) {
        Ok(place) => Ok(place),
        Err(_) => Err(Stop::NoMemory),
    }
}

/// ftruncate(2).
#[tactic(auto, using(plain_checks::proofs::Binding::stops_answer, plain_checks::proofs::Binding::goes_answer, plain_checks::proofs::Binding::kept_answer))]
pub fn ftruncate(
    alloc: Global,
    world: &mut World,
    caller: u32,
    fd: u32,
    len: u32,
) -> Result<Answer, Stop>
    requires { IsNumbered world.old }
    ensures answered { Answers (rows.ftruncate world.old caller fd len) world.old world.new result }
    ensures kept { IsNumbered world.new }
{
    let place = open_file(alloc, world, caller, fd, len)?;
    made(resize_at(world, &place, len))?;
    Ok(Answer::done())
}
