// The paths of a call, how each is walked, and what it finds.
ghost use Rattle.std.specs.Prelude.{◌≡◌, None, IsOk, IfOk, IfErr};
ghost use Rattle.call_model.specs.Rows.{way, open_leaf, first_way, second_way, check_way, found_at};
ghost use Rattle.plain_checks.specs.Coming.{Comes};
ghost use Rattle.plain_calls.specs.Answering.{way_of};

use call_model::{Call, Flags};
use plain_checks::{Stop, made};
use std::alloc::{AllocError, Global};
use vfs_paths::{PathFault, find, in_cwd, parse_path};
use vfs_tree::{Errno, Found, Leaf, World};

/// How the file is looked for that is to be opened.
fn open_leaf(flags: &Flags) -> Leaf
    ensures { result ≡ open_leaf flags.now.make flags.now.fresh }
{
    match (flags.make, flags.fresh) {
        (true, true) => Leaf::Parent,
        (true, false) => Leaf::Create,
        (false, _) => Leaf::Follow,
    }
}

/// The first path of a call, and how it is walked.
pub fn first_way(call: &Call) -> Option<(Leaf, &[u8])>
    ensures { way_of result ≡ first_way call.now }
{
    match call {
        Call::Mkdir { p } | Call::Rmdir { p } | Call::Unlink { p } | Call::Undelete { p } => {
            Some((Leaf::Parent, p.as_slice()))
        }
        Call::Symlink { p, .. } => Some((Leaf::Parent, p.as_slice())),
        Call::Rename { a, .. } => Some((Leaf::Parent, a.as_slice())),
        Call::Open { p, f } => Some((open_leaf(f), p.as_slice())),
        Call::Stat { p } | Call::Chdir { p } | Call::Statfs { p } | Call::Revoke { p } => {
            Some((Leaf::Follow, p.as_slice()))
        }
        Call::Truncate { p, .. } => Some((Leaf::Follow, p.as_slice())),
        Call::Link { a, .. } => Some((Leaf::Follow, a.as_slice())),
        Call::MountMem { p } => Some((Leaf::Follow, p.as_slice())),
        Call::MountNull { t, .. } => Some((Leaf::Follow, t.as_slice())),
        Call::MountUnion { u, .. } => Some((Leaf::Follow, u.as_slice())),
        Call::Lstat { p } | Call::Readlink { p } => Some((Leaf::NoFollow, p.as_slice())),
        Call::Umount { p } | Call::UmountForce { p } => Some((Leaf::Mount, p.as_slice())),
        Call::Close { .. } | Call::Read { .. } | Call::Pread { .. } | Call::Write { .. } => None,
        Call::Pwrite { .. } | Call::Lseek { .. } | Call::Ftruncate { .. } => None,
        Call::Fstat { .. } | Call::Readdir { .. } | Call::Fchdir { .. } => None,
    }
}

/// The second path of a call.
pub fn second_way(call: &Call) -> Option<(Leaf, &[u8])>
    ensures { way_of result ≡ second_way call.now }
{
    match call {
        Call::Rename { b, .. } | Call::Link { b, .. } => Some((Leaf::Parent, b.as_slice())),
        Call::MountNull { p, .. } | Call::MountUnion { p, .. } => Some((
            Leaf::Follow,
            p.as_slice(),
        )),
        _ => None,
    }
}

/// Why a path is none.
fn check_path(alloc: Global, leaf: Leaf, text: &[u8]) -> Result<(), Stop>
    ensures { Comes (check_way (way leaf text.now)) result }
{
    match parse_path(alloc, text) {
        Ok(_) => Ok(()),
        Err(PathFault::Refused { errno }) => Err(Stop::Refused { errno }),
        Err(PathFault::NoMemory) => Err(Stop::NoMemory),
    }
}

/// Why a path that a call may have is none.
pub fn check_way(alloc: Global, way: Option<(Leaf, &[u8])>) -> Result<(), Stop>
    ensures comes { Comes (check_way (way_of way.entry)) result }
    ensures sure { way_of way.entry ≡ None → IsOk result }
{
    match way {
        Some((leaf, text)) => check_path(alloc, leaf, text),
        None => Ok(()),
    }
}

/// What a path finds for a caller, whose current directory a relative one begins at. The only fault is want of memory.
fn found_along(
    alloc: Global,
    world: &World,
    caller: u32,
    leaf: Leaf,
    text: &[u8],
) -> Result<Found, AllocError>
    ensures { IfOk result (λ found. found ≡ found_at world.now caller (way leaf text.now)) }
{
    let from = in_cwd(alloc, world, world.cwds.get(caller))?;
    find(alloc, world, leaf, from, text)
}

/// What a path that a call may have finds for its caller. A call without that path never looks at the answer.
pub fn found_at(
    alloc: Global,
    world: &World,
    caller: u32,
    way: Option<(Leaf, &[u8])>,
) -> Result<Found, Stop>
    ensures found { IfOk result (λ found. found ≡ found_at world.now caller (way_of way.entry)) }
    ensures lacks { IfErr result (λ why. why ≡ Stop.NoMemory) }
    ensures sure { way_of way.entry ≡ None → IsOk result }
{
    match way {
        Some((leaf, text)) => made(found_along(alloc, world, caller, leaf, text)),
        None => Ok(Found::Refused {
            errno: Errno::EBADF,
        }),
    }
}
