ghost use Rattle.std.specs.Prelude.{◌≡◌, pos, ◌+ℤ◌, IfErr};
ghost use Rattle.vfs_tree.specs.Nodes.{IsNumbered};
ghost use Rattle.call_model.specs.Checks as checks;
ghost use Rattle.call_model.specs.DataRows as rows;
ghost use Rattle.call_model.specs.NameRows.{size_in, size_of};
ghost use Rattle.plain_checks.specs.Coming.{Answers, Comes};
ghost use Rattle.plain_names.specs.Decided.{IsDecided};

use crate::descriptors::{descriptor, set_offset};
use call_model::Whence;
use plain_checks::{Answer, Stop};
use vfs_paths::base;
use vfs_tree::{Bytes, Errno, Node, Open, Place, World};

/// The size in bytes as an answer gives it.
fn size_of(bytes: &Bytes) -> u32
    ensures { result ≡ size_of bytes.now }
{
    bytes.len().min(4294967295) as u32
}

/// The size of a place: a directory has 0, a link the length of its target.
pub(crate) fn size_at(world: &World, place: &Place) -> u32
    ensures { result ≡ size_in (checks.node_of world.now place.now) }
{
    let at = base(world, place);
    match world.node(at.store, at.ino) {
        Some(Node::Dir { .. }) => 0,
        Some(Node::File { bytes }) => size_of(bytes),
        Some(Node::Link { target }) => size_of(target),
        None => 0,
    }
}

/// From where an offset counts.
fn seek_from(world: &World, file: &Open, whence: Whence) -> u64
    ensures { result ≡ rows.seek_from world.now file.now whence }
{
    match whence {
        Whence::Set => 0,
        Whence::Cur => file.offset,
        Whence::End => u64::from(size_at(world, &file.place)),
    }
}

/// The offset at a distance; EINVAL where it doesn't lie from 0 to 4,294,967,295.
fn offset_of(from: u64, distance: i64) -> Result<u64, Stop>
    ensures comes { Comes (rows.offset_of (pos from +ℤ distance)) result }
    ensures sure { IfErr result IsDecided }
{
    match from.checked_add_signed(distance) {
        Some(at) => {
            if at > 4_294_967_295 {
                return Err(Stop::Refused {
                    errno: Errno::EINVAL,
                });
            }
            Ok(at)
        }
        None => Err(Stop::Refused {
            errno: Errno::EINVAL,
        }),
    }
}

/// lseek(2). It never wants memory.
#[tactic(auto, using(plain_checks::proofs::Binding::stops_answer, plain_checks::proofs::Binding::goes_answer))]
pub fn lseek(
    world: &mut World,
    caller: u32,
    fd: u32,
    whence: Whence,
    distance: i64,
) -> Result<Answer, Stop>
    requires { IsNumbered world.old }
    ensures answered { Answers (rows.lseek world.old caller fd whence distance) world.old world.new result }
    ensures sure { IfErr result IsDecided }
    ensures kept { IsNumbered world.new }
{
    let open = descriptor(world, caller, fd)?;
    if open.dead {
        return Err(Stop::Refused {
            errno: Errno::EBADF,
        });
    }
    let at = offset_of(seek_from(world, open, whence), distance)?;
    set_offset(world, caller, fd, at);
    Ok(Answer::offset(at))
}
