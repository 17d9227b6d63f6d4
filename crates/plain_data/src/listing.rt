ghost use Rattle.std.specs.Prelude.{◌≡◌, IfOk};
ghost use Rattle.vfs_tree.specs.Visible.{visible};
ghost use Rattle.call_model.specs.Checks as checks;
ghost use Rattle.call_model.specs.DataRows as rows;
ghost use Rattle.plain_checks.specs.Coming.{Answers, Comes};

use crate::descriptors::descriptor;
use call_model::Reply;
use finite_maps::Duplicate;
use plain_checks::{Answer, Stop, made, need_shadow};
use plain_views::visible;
use std::alloc::{AllocError, Global};
use vfs_paths::is_dir;
use vfs_tree::{Errno, NameList, Place, Step, World};

/// The names that a directory shows.
#[tactic(auto, using(plain_checks::proofs::Binding::needs, plain_checks::proofs::Binding::lacks))]
fn listed(alloc: Global, world: &World, dir: &Place) -> Result<NameList, Stop>
    ensures { Comes (checks.lifted world.now (visible world.now dir.now)) result }
{
    match visible(alloc, world, dir) {
        Ok(Step::Go { value }) => Ok(value),
        Ok(Step::Refuse { errno }) => Err(Stop::Refused { errno }),
        Ok(Step::Wants { what }) => Err(need_shadow(world, what)),
        Err(_) => Err(Stop::NoMemory),
    }
}

/// A copy of names. The only fault is want of memory.
fn copy_names(alloc: Global, names: &NameList) -> Result<NameList, AllocError>
    ensures { IfOk result (λ copy. copy ≡ names.now) }
{
    let mut copy = Vec::new(alloc);
    for name in names.as_slice() {
        copy.push(name.duplicate(alloc)?)?;
    }
    Ok(NameList::of(copy))
}

/// The answer that gives these names. The only fault is want of memory.
fn names_answer(alloc: Global, names: NameList) -> Result<Answer, AllocError>
    ensures { IfOk result (λ answer. answer.reply ≡ Reply.Names names) }
{
    let entered = copy_names(alloc, &names)?;
    Ok(Answer {
        reply: Reply::Names { names },
        entered: Reply::Names { names: entered },
    })
}

/// getdirentries(2), with all visible names at once.
#[tactic(auto, using(plain_checks::proofs::Binding::stops_answer, plain_checks::proofs::Binding::goes_answer, plain_checks::proofs::Binding::kept_answer))]
pub fn readdir(alloc: Global, world: &World, caller: u32, fd: u32) -> Result<Answer, Stop>
    ensures { Answers (rows.readdir world.now caller fd) world.now world.now result }
{
    let open = descriptor(world, caller, fd)?;
    if open.dead {
        return Err(Stop::Refused {
            errno: Errno::EBADF,
        });
    }
    if !is_dir(world, &open.place) {
        return Err(Stop::Refused {
            errno: Errno::ENOTDIR,
        });
    }
    let names = listed(alloc, world, &open.place)?;
    made(names_answer(alloc, names))
}
