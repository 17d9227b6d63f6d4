ghost use Rattle.std.specs.Prelude.{◌≡◌, ◌+◌, ◌≤◌, length, true, false, nat_lt, IfOk, IfErr, OnOk, OnErr};
ghost use Rattle.std.specs.FinMap as map;
ghost use Rattle.vfs_tree.specs.Edits.{with_store};
ghost use Rattle.vfs_tree.specs.FileEdits.{written};
ghost use Rattle.vfs_tree.specs.Nodes.{IsNumbered};
ghost use Rattle.vfs_tree.specs.declared.errno.Errno.TheVariants.{EFBIG};
ghost use Rattle.call_model.specs.DataRows as rows;
ghost use Rattle.plain_checks.specs.Coming.{Answers, Comes};

use crate::descriptors::{descriptor, set_offset};
use crate::reading::bytes_of;
use plain_checks::{Answer, Stop, made};
use std::alloc::AllocError;
use vfs_paths::base;
use vfs_tree::{Errno, NodeId, Open, World};

/// Why an open file can't be written, or not so much at once.
#[tactic(auto, using(plain_checks::proofs::Binding::stops, plain_checks::proofs::Binding::goes))]
fn check_write(file: &Open, bytes: &[u8]) -> Result<(), Stop>
    ensures checked { Comes (rows.check_write file.now bytes.now) result }
    ensures short { OnOk result (length bytes.now ≤ 65536) }
{
    if file.dead {
        return Err(Stop::Refused { errno: Errno::EIO });
    }
    if !file.mode.write {
        return Err(Stop::Refused {
            errno: Errno::EBADF,
        });
    }
    if bytes.len() > 65_536 {
        return Err(Stop::Refused {
            errno: Errno::EINVAL,
        });
    }
    Ok(())
}

/// Where the bytes go: to the end of a file that is open for appending, and else to that offset.
fn write_to(world: &World, file: &Open, at: u64) -> u64
    ensures { result ≡ rows.write_to world.now file.now at }
{
    if file.mode.append {
        return bytes_of(world, &file.place).len() as u64;
    }
    at
}

/// The offset of the end of bytes that are written at an offset; EFBIG where a file can't be so long.
fn end_of(at: u64, bytes: &[u8]) -> Result<u64, Stop>
    requires { length bytes.now ≤ 65536 }
    ensures room { OnOk result (nat_lt rows.most_bytes (at + length bytes.now) ≡ false) }
    ensures end { IfOk result (λ end. end ≡ at + length bytes.now) }
    ensures full { OnErr result (nat_lt rows.most_bytes (at + length bytes.now) ≡ true) }
    ensures why { IfErr result (λ why. why ≡ Stop.Refused EFBIG) }
{
    let room = 1_048_576 - bytes.len() as u64;
    if at > room {
        return Err(Stop::Refused {
            errno: Errno::EFBIG,
        });
    }
    Ok(at + bytes.len() as u64)
}

/// Writes bytes at an offset of the file at a node. The only fault is want of memory.
fn write_node(world: &mut World, at: NodeId, offset: u64, bytes: &[u8]) -> Result<(), AllocError>
    requires numbered { IsNumbered world.old }
    requires room { nat_lt rows.most_bytes (offset + length bytes.now) ≡ false }
    ensures written { OnOk result (world.new ≡ with_store (λ t. written t at.ino offset bytes.now) world.old at.store (map.get world.old.stores at.store)) }
    ensures err { OnErr result (world.new ≡ world.old) }
    ensures opens { world.new.opens ≡ world.old.opens }
    ensures kept { IsNumbered world.new }
{
    match world.stores.get_mut(at.store) {
        Some(store) => match store.write(at.ino, offset as usize, bytes) {
            Ok(()) => Ok(()),
            Err(error) => Err(error),
        },
        None => Ok(()),
    }
}

/// write(2): the offset is then the end of what was written. No bytes change nothing.
pub fn write(world: &mut World, caller: u32, fd: u32, bytes: &[u8]) -> Result<Answer, Stop>
    requires { IsNumbered world.old }
    ensures answered { Answers (rows.write world.old caller fd bytes.now) world.old world.new result }
    ensures kept { IsNumbered world.new }
{
    let open = descriptor(world, caller, fd)?;
    check_write(open, bytes)?;
    if bytes.is_empty() {
        return Ok(Answer::count(0));
    }
    let offset = write_to(world, open, open.offset);
    let end = end_of(offset, bytes)?;
    let node = base(world, &open.place);
    made(write_node(world, node, offset, bytes))?;
    set_offset(world, caller, fd, end);
    Ok(Answer::count(bytes.len() as u32))
}

/// pwrite(2): the offset stays. No bytes change nothing.
pub fn pwrite(
    world: &mut World,
    caller: u32,
    fd: u32,
    bytes: &[u8],
    at: u32,
) -> Result<Answer, Stop>
    requires { IsNumbered world.old }
    ensures answered { Answers (rows.pwrite world.old caller fd at bytes.now) world.old world.new result }
    ensures kept { IsNumbered world.new }
{
    let open = descriptor(world, caller, fd)?;
    check_write(open, bytes)?;
    if bytes.is_empty() {
        return Ok(Answer::count(0));
    }
    let offset = write_to(world, open, u64::from(at));
    end_of(offset, bytes)?;
    let node = base(world, &open.place);
    made(write_node(world, node, offset, bytes))?;
    Ok(Answer::count(bytes.len() as u32))
}
