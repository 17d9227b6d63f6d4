ghost use Rattle.std.specs.Prelude.{◌≡◌, ◌+◌, ◌≤◌, ◌<◌, ◌^◌, length, IfOk, IfErr, OnOk};
ghost use Rattle.vfs_tree.specs.Nodes.{IsNumbered};
ghost use Rattle.call_model.specs.DataRows as rows;
ghost use Rattle.plain_checks.specs.Coming.{Answers, Comes};
ghost use Rattle.plain_names.specs.Decided.{IsDecided};

use crate::descriptors::{descriptor, set_offset};
use crate::room::Room;
use call_model::Reply;
use plain_checks::{Answer, Stop};
use std::alloc::{AllocError, Global};
use vfs_paths::{base, is_dir};
use vfs_tree::{Bytes, Errno, Node, Open, Place, World};

/// Why an open file can't be read, or not so much at once.
#[tactic(auto, using(plain_checks::proofs::Binding::stops, plain_checks::proofs::Binding::goes))]
fn check_read(world: &World, file: &Open, n: u32) -> Result<(), Stop>
    ensures checked { Comes (rows.check_read world.now file.now n) result }
    ensures short { OnOk result (n ≤ 65536) }
    ensures sure { IfErr result IsDecided }
{
    if file.dead {
        return Err(Stop::Refused { errno: Errno::EIO });
    }
    if !file.mode.read {
        return Err(Stop::Refused {
            errno: Errno::EBADF,
        });
    }
    if is_dir(world, &file.place) {
        return Err(Stop::Refused {
            errno: Errno::EISDIR,
        });
    }
    if n > 65_536 {
        return Err(Stop::Refused {
            errno: Errno::EINVAL,
        });
    }
    Ok(())
}

/// The contents of a place: those of a regular file, and of another no bytes.
pub(crate) fn bytes_of<'w>(world: &'w World, place: &Place) -> &'w [u8]
    ensures { result.now ≡ rows.bytes_of world.now place.now }
{
    let at = base(world, place);
    match world.node(at.store, at.ino) {
        Some(Node::File { bytes }) => bytes.as_slice(),
        Some(Node::Dir { .. }) => &[],
        Some(Node::Link { .. }) => &[],
        None => &[],
    }
}

/// At most `n` bytes from an offset on.
fn piece(bytes: &[u8], at: u64, n: u32) -> &[u8]
    ensures piece { result.now ≡ rows.piece bytes.now at n }
    ensures end { at + length result.now < 2 ^ 64 }
    ensures short { length result.now ≤ n }
{
    if at >= bytes.len() as u64 {
        return &bytes[..0];
    }
    let rest = &bytes[at as usize..];
    &rest[..rest.len().min(n as usize)]
}

/// The answer that gives these bytes, in memory of just their size. The only fault is want of memory.
fn exact(alloc: Global, bytes: &[u8]) -> Result<Answer, AllocError>
    ensures { IfOk result (λ answer. answer.reply ≡ Reply.Bytes bytes.now) }
{
    let reply = Bytes::copy_of(alloc, bytes)?;
    let entered = Bytes::copy_of(alloc, bytes)?;
    Ok(Answer {
        reply: Reply::Bytes { bytes: reply },
        entered: Reply::Bytes { bytes: entered },
    })
}

/// The answer that gives these bytes, in the room that was made for them.
fn within(bytes: &[u8], room: Room) -> Answer
    requires { length bytes.now ≤ room }
    ensures { result.reply ≡ Reply.Bytes bytes.now }
{
    let (reply, entered) = room.copies(bytes);
    Answer {
        reply: Reply::Bytes { bytes: reply },
        entered: Reply::Bytes { bytes: entered },
    }
}

/// The answer that gives these bytes. The room is taken only where no memory is found, since an answer keeps all of it.
fn bytes_answer(alloc: Global, bytes: &[u8], room: Room) -> Answer
    requires { length bytes.now ≤ room }
    ensures { result.reply ≡ Reply.Bytes bytes.now }
{
    match exact(alloc, bytes) {
        Ok(answer) => answer,
        Err(_) => within(bytes, room),
    }
}

/// read(2): the offset moves by the bytes read. With room for as many bytes as may be read at once it never wants memory.
#[tactic(auto, using(plain_checks::proofs::Binding::stops_answer, plain_checks::proofs::Binding::goes_answer))]
pub fn read(
    alloc: Global,
    world: &mut World,
    caller: u32,
    fd: u32,
    n: u32,
    room: Room,
) -> Result<Answer, Stop>
    requires numbered { IsNumbered world.old }
    requires room { n ≤ 65536 → n ≤ room }
    ensures answered { Answers (rows.read world.old caller fd n) world.old world.new result }
    ensures sure { IfErr result IsDecided }
    ensures kept { IsNumbered world.new }
{
    let open = descriptor(world, caller, fd)?;
    check_read(world, open, n)?;
    let bytes = piece(bytes_of(world, &open.place), open.offset, n);
    let end = open.offset + bytes.len() as u64;
    let answer = bytes_answer(alloc, bytes, room);
    set_offset(world, caller, fd, end);
    Ok(answer)
}

/// pread(2): the offset stays. With room for as many bytes as may be read at once it never wants memory.
#[tactic(auto, using(plain_checks::proofs::Binding::stops_answer, plain_checks::proofs::Binding::goes_answer))]
pub fn pread(
    alloc: Global,
    world: &World,
    caller: u32,
    fd: u32,
    n: u32,
    at: u32,
    room: Room,
) -> Result<Answer, Stop>
    requires { n ≤ 65536 → n ≤ room }
    ensures answered { Answers (rows.pread world.now caller fd n at) world.now world.now result }
    ensures sure { IfErr result IsDecided }
{
    let open = descriptor(world, caller, fd)?;
    check_read(world, open, n)?;
    let bytes = piece(bytes_of(world, &open.place), u64::from(at), n);
    Ok(bytes_answer(alloc, bytes, room))
}
