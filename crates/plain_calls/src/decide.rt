// What is decided of what the paths of a call found.
ghost use Rattle.std.specs.Prelude.{◌≡◌, None};
ghost use Rattle.std.specs.FinMap as map;
ghost use Rattle.vfs_tree.specs.Nodes.{IsNumbered};
ghost use Rattle.call_model.specs.Rows.{decided};
ghost use Rattle.plain_checks.specs.Coming.{Answers};
ghost use Rattle.plain_calls.specs.Answering.{HasMemory, HasRoomFor, NeedsNoMemory};

use crate::reading::{pread, read};
use call_model::Call;
use plain_checks::{Answer, Stop};
use plain_data::Room;
use std::alloc::Global;
use vfs_tree::{Found, World};

/// Answers a call of a caller that isn't leaving a mount, by what its paths found, or tells what it needs first.
pub fn decide(
    alloc: Global,
    world: &mut World,
    caller: u32,
    call: &Call,
    first: Found,
    second: Found,
    room: Option<Room>,
) -> Result<Answer, Stop>
    requires numbered { IsNumbered world.old }
    requires stays { map.get world.old.leaving caller ≡ None }
    requires room { HasRoomFor call.now room }
    ensures answered { Answers (decided world.old caller call.now first second) world.old world.new result }
    ensures reserved { NeedsNoMemory call.now → HasMemory result }
    ensures kept { IsNumbered world.new }
{
    match call {
        Call::Mkdir { .. } => plain_names::mkdir(alloc, world, first),
        Call::Rmdir { .. } => plain_names::rmdir(alloc, world, first),
        Call::Open { f, .. } => plain_data::open(alloc, world, caller, *f, first),
        Call::Close { d } => plain_data::close(world, caller, *d),
        Call::Read { d, n } => read(alloc, world, caller, *d, *n, room),
        Call::Pread { d, n, o } => pread(alloc, world, caller, *d, *n, *o, room),
        Call::Write { d, w } => plain_data::write(world, caller, *d, w.as_slice()),
        Call::Pwrite { d, o, w } => plain_data::pwrite(world, caller, *d, w.as_slice(), *o),
        Call::Lseek { d, h, i } => plain_data::lseek(world, caller, *d, *h, *i),
        Call::Truncate { n, .. } => plain_data::truncate(alloc, world, first, *n),
        Call::Ftruncate { d, n } => plain_data::ftruncate(alloc, world, caller, *d, *n),
        Call::Stat { .. } | Call::Lstat { .. } => plain_names::stat(world, first),
        Call::Fstat { d } => plain_data::fstat(world, caller, *d),
        Call::Readdir { d } => plain_data::readdir(alloc, world, caller, *d),
        Call::Unlink { .. } => plain_names::unlink(alloc, world, first),
        Call::Rename { .. } => plain_names::rename(alloc, world, first, second),
        Call::Link { .. } => plain_names::link(alloc, world, first, second),
        Call::Symlink { t, .. } => plain_names::symlink(alloc, world, t.as_slice(), first),
        Call::Readlink { .. } => plain_names::readlink(alloc, world, first),
        Call::Undelete { .. } => plain_names::undelete(world, first),
        Call::Chdir { .. } => plain_names::chdir(world, caller, first),
        Call::Fchdir { d } => plain_data::fchdir(alloc, world, caller, *d),
        Call::Statfs { .. } => plain_names::statfs(world, first),
        Call::MountMem { .. } => plain_mounts::mount_mem(alloc, world, first),
        Call::MountNull { .. } => plain_mounts::mount_null(world, first, second),
        Call::MountUnion { .. } => plain_mounts::mount_union(alloc, world, first, second),
        Call::Umount { .. } => plain_mounts::umount(world, first),
        Call::UmountForce { .. } => plain_mounts::detach_first(world, first),
        Call::Revoke { .. } => plain_mounts::revoke(world, first),
    }
}
