ghost use Rattle.std.specs.Prelude.{◌≡◌, ◌+◌, ◌≤◌, None, IfOk, OnOk, OnErr};
ghost use Rattle.std.specs.FinMap as map;
ghost use Rattle.vfs_tree.specs.Nodes.{IsNumbered, next_of};
ghost use Rattle.call_model.specs.DataRows as rows;
ghost use Rattle.plain_checks.specs.Coming.{Answers, Comes};

use crate::length::resize_node;
use call_model::{Access, Flags};
use finite_maps::Duplicate;
use plain_checks::{Answer, Stop, copied, made, make_at, need_shadow};
use std::alloc::{AllocError, Global};
use vfs_paths::{base, is_dir};
use vfs_tree::{Bytes, Errno, Found, Mode, Name, Node, Open, Place, View, World};

/// Whether a file is opened for writing.
fn writes(access: Access) -> bool
    ensures { result ≡ rows.writes access }
{
    match access {
        Access::Read => false,
        Access::Write => true,
        Access::Both => true,
    }
}

/// Whether a file is opened for reading.
fn reads(access: Access) -> bool
    ensures { result ≡ rows.reads access }
{
    match access {
        Access::Read => true,
        Access::Write => false,
        Access::Both => true,
    }
}

/// Whether flags go together: to cut a file asks for writing, and a directory isn't made.
fn are_flags(flags: Flags) -> bool
    ensures { result ≡ rows.are_flags flags }
{
    !(flags.cut && !writes(flags.access)) && !(flags.make && flags.dir)
}

/// From a number on, the first descriptor of a caller that is free among that many.
fn free_from(world: &World, caller: u32, steps: u32, fd: u32) -> Result<u32, Stop>
    requires { fd + steps ≤ 32 }
    ensures lowest { Comes (rows.free_from steps world.now caller fd) result }
    ensures free { IfOk result (λ fd. map.get world.now.opens (caller, fd) ≡ None) }
{
    if steps == 0 {
        return Err(Stop::Refused {
            errno: Errno::EMFILE,
        });
    }
    match world.opens.get((caller, fd)) {
        Some(_) => free_from(world, caller, steps - 1, fd + 1),
        None => Ok(fd),
    }
}

/// The lowest free descriptor of a caller; EMFILE where all 32 are open.
fn free_descriptor(world: &World, caller: u32) -> Result<u32, Stop>
    ensures lowest { Comes (rows.free_descriptor world.now caller) result }
    ensures free { IfOk result (λ fd. map.get world.now.opens (caller, fd) ≡ None) }
{
    free_from(world, caller, 32, 0)
}

/// Lets a descriptor stand for a place. The only fault is want of memory.
fn hold(
    world: &mut World,
    caller: u32,
    fd: u32,
    flags: Flags,
    place: Place,
) -> Result<(), AllocError>
    ensures ok { OnOk result (world.new ≡ rows.open_place world.old caller fd flags place) }
    ensures err { OnErr result (world.new ≡ world.old) }
{
    let open = Open {
        place,
        offset: 0,
        mode: Mode {
            read: reads(flags.access),
            write: writes(flags.access),
            append: flags.append,
        },
        dead: false,
    };
    match world.opens.insert((caller, fd), open) {
        Ok(_) => Ok(()),
        Err(error) => Err(error),
    }
}

/// Lets a free descriptor stand for a place, whose file is cut to nothing where that is asked. The descriptor's memory is
/// found first, since a cut can't be taken back. The only fault is want of memory.
fn hold_cut(
    world: &mut World,
    caller: u32,
    fd: u32,
    flags: Flags,
    place: Place,
) -> Result<(), AllocError>
    requires numbered { IsNumbered world.old }
    requires free { map.get world.old.opens (caller, fd) ≡ None }
    ensures ok { OnOk result (world.new ≡ rows.open_place (rows.cut_to flags.cut world.old place) caller fd flags place) }
    ensures err { OnErr result (world.new ≡ world.old) }
    ensures kept { IsNumbered world.new }
{
    let at = base(world, &place);
    hold(world, caller, fd, flags, place)?;
    if !flags.cut {
        return Ok(());
    }
    match resize_node(world, at, 0) {
        Ok(()) => Ok(()),
        Err(error) => {
            world.opens.remove((caller, fd));
            Err(error)
        }
    }
}

/// Nothing, or the copy that is needed first where a file of a union's lower layer alone is opened for writing.
fn copied_for(alloc: Global, world: &World, write: bool, place: &Place) -> Result<(), Stop>
    ensures { Comes (rows.copied_for write world.now place.now) result }
{
    if write {
        return copied(alloc, world, place);
    }
    Ok(())
}

/// Opens what stands there.
#[tactic(auto, using(plain_checks::proofs::Binding::stops_answer, plain_checks::proofs::Binding::goes_answer, plain_checks::proofs::Binding::kept_answer))]
fn open_there(
    alloc: Global,
    world: &mut World,
    caller: u32,
    fd: u32,
    flags: Flags,
    place: Place,
) -> Result<Answer, Stop>
    requires numbered { IsNumbered world.old }
    requires free { map.get world.old.opens (caller, fd) ≡ None }
    ensures answered { Answers (rows.open_there world.old caller fd flags place) world.old world.new result }
    ensures kept { IsNumbered world.new }
{
    if is_dir(world, &place) && writes(flags.access) {
        return Err(Stop::Refused {
            errno: Errno::EISDIR,
        });
    }
    if !is_dir(world, &place) && flags.dir {
        return Err(Stop::Refused {
            errno: Errno::ENOTDIR,
        });
    }
    copied_for(alloc, world, writes(flags.access), &place)?;
    made(hold_cut(world, caller, fd, flags, place))?;
    Ok(Answer::fd(fd))
}

/// The number of a store's next node; 0 where there is no such store.
fn next_ino(world: &World, store: u32) -> u32
    ensures { result ≡ next_of (map.get world.now.stores store) }
{
    match world.stores.get(store) {
        Some(store) => store.next(),
        None => 0,
    }
}

/// The place of an inode that a directory's name gives. The only fault is want of memory.
fn place_in(alloc: Global, dir: &Place, ino: u32) -> Result<Place, AllocError>
    ensures { IfOk result (λ place. place ≡ rows.place_in dir.now ino) }
{
    match &dir.view {
        View::Mem { mount, .. } => Ok(Place::mem(*mount, ino)),
        View::Null { mount, lower } => {
            let lower = place_in(alloc, lower, ino)?;
            Place::null(alloc, *mount, lower)
        }
        View::UnionUp { mount, .. } => Ok(Place::union_up(*mount, ino)),
        View::UnionLow { .. } => dir.duplicate(alloc),
    }
}

/// Makes an empty file, and opens it. The descriptor's memory is found first, since a name that was made isn't taken back.
fn open_made(
    alloc: Global,
    world: &mut World,
    caller: u32,
    fd: u32,
    flags: Flags,
    dir: Place,
    name: Name,
) -> Result<Answer, Stop>
    requires numbered { IsNumbered world.old }
    requires free { map.get world.old.opens (caller, fd) ≡ None }
    ensures answered { Answers (rows.open_made world.old caller fd flags dir name) world.old world.new result }
    ensures kept { IsNumbered world.new }
{
    let ino = next_ino(world, base(world, &dir).store);
    let place = made(place_in(alloc, &dir, ino))?;
    made(hold(world, caller, fd, flags, place))?;
    let node = Node::File {
        bytes: Bytes::new(alloc),
    };
    match make_at(world, &dir, name, node) {
        Ok(_) => Ok(Answer::fd(fd)),
        Err(why) => {
            world.opens.remove((caller, fd));
            Err(why)
        }
    }
}

/// Opens what was found. A file that isn't there is made.
#[tactic(auto, using(plain_checks::proofs::Binding::needs))]
fn open_found(
    alloc: Global,
    world: &mut World,
    caller: u32,
    fd: u32,
    flags: Flags,
    found: Found,
) -> Result<Answer, Stop>
    requires numbered { IsNumbered world.old }
    requires free { map.get world.old.opens (caller, fd) ≡ None }
    ensures answered { Answers (rows.open_found world.old caller fd flags found) world.old world.new result }
    ensures kept { IsNumbered world.new }
{
    let errno = match found {
        Found::At { place } => return open_there(alloc, world, caller, fd, flags, place),
        Found::In {
            dir,
            name,
            child: None,
        } => return open_made(alloc, world, caller, fd, flags, dir, name),
        Found::Need { need } => return Err(need_shadow(world, need)),
        Found::In { .. } => Errno::EEXIST,
        Found::Dot { .. } => Errno::EEXIST,
        Found::Mount { .. } => Errno::EINVAL,
        Found::Refused { errno } => errno,
    };
    Err(Stop::Refused { errno })
}

/// open(2). EMFILE comes where all 32 descriptors of the caller are open, ENFILE where as many are open in all as may be.
#[tactic(auto, using(plain_checks::proofs::Binding::stops_answer, plain_checks::proofs::Binding::goes_answer))]
pub fn open(
    alloc: Global,
    world: &mut World,
    caller: u32,
    flags: Flags,
    found: Found,
) -> Result<Answer, Stop>
    requires { IsNumbered world.old }
    ensures answered { Answers (rows.open_file world.old caller flags found) world.old world.new result }
    ensures kept { IsNumbered world.new }
{
    if !are_flags(flags) {
        return Err(Stop::Refused {
            errno: Errno::EINVAL,
        });
    }
    let fd = free_descriptor(world, caller)?;
    if world.opens.len() >= world.limits.files as usize {
        return Err(Stop::Refused {
            errno: Errno::ENFILE,
        });
    }
    open_found(alloc, world, caller, fd, flags, found)
}
