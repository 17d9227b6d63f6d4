// A run with a thread for each caller.
ghost use Rattle.std.specs.Prelude.{◌≡◌, ◌<◌, ◌≤◌, ◌++◌, ◌∷◌, ℕ, [], List, length, All, IfOk, vec_len, vec_capacity};
ghost use Rattle.std.specs.FinMap.{empty};
ghost use Rattle.std.specs.Option.{option_or};
ghost use Rattle.call_model.specs.Legal.{calls_of};
ghost use Rattle.call_model.specs.declared.call.Call.{Call};
ghost use Rattle.script_text.specs.Script.{HasText};
ghost use Rattle.vfs_core.specs.Seats.{IsSeatOf, made};
ghost use Rattle.vfs_cli.specs.Output.{HasRun, IsAhead};
ghost use Rattle.vfs_cli.specs.Workers.{AreWorkers, IsFresh, HasGathered, IsUpTo, plan_at};
ghost use Rattle.vfs_cli.specs.declared.words.Turns.TheVariants.{Together};

use crate::plan::{Plan, lines_of, plans_of};
use crate::running::run_job;
use crate::words::Turns;
use crate::worker::{Worker, work_all};
use script_text::Script;
use std::alloc::{AllocError, Global};
use std::sync::Wait;
use std::thread::Threads;
use vfs_core::{Job, Kern, Seat, Vfs};
use vfs_flow::Gate;

/// Gives the last plan to a worker with this seat.
fn hire_one(seat: Seat, plans: &mut Vec<Plan>, workers: &mut Vec<Worker>)
    requires some { 0 < vec_len plans.old }
    requires room { vec_len workers.old < vec_capacity workers.old }
    ensures hired { (left : List Call) × (plans.old.items ≡ plans.new.items ++ left ∷ []) × (workers.new.items ≡ workers.old.items ++ record { seat = seat; left = left } ∷ []) }
    ensures plans_room { vec_capacity plans.new ≡ vec_capacity plans.old }
    ensures workers_room { vec_capacity workers.new ≡ vec_capacity workers.old }
{
    let Some(left) = plans.pop() else {
        unreachable!()
    };
    workers.push_reserved(Worker { seat, left });
}

/// Gives each caller's plan to a worker that has the caller's seat.
fn hire(vfs: &Vfs, seat: Seat, plans: &mut Vec<Plan>, workers: &mut Vec<Worker>)
    requires some { 0 < vec_len plans.old }
    requires few { vec_len plans.old ≤ 16 }
    requires fresh { IsFresh vfs.now (vec_len plans.old) seat }
    requires none { workers.old.items ≡ [] }
    requires room { vec_len plans.old ≤ vec_capacity workers.old }
    ensures count { vec_len workers.new ≡ vec_len plans.old }
    ensures workers { AreWorkers vfs.now plans.old.items workers.new.items }
    ensures taken { plans.new.items ≡ [] }
    ensures plans_room { vec_capacity plans.new ≡ vec_capacity plans.old }
{
    let mut seat = seat;
    while plans.len() > 1 {
        let own = vfs.split(&mut seat, plans.len() as u32);
        hire_one(own, plans, workers);
    }
    hire_one(seat, plans, workers);
}

/// Takes in the seat of a worker, and puts what it has left back as a plan.
fn take_in(vfs: &Vfs, seat: &mut Seat, worker: Worker, plans: &mut Vec<Plan>)
    requires own { IsSeatOf vfs.now seat.old × IsSeatOf vfs.now worker.seat }
    requires room { vec_len plans.old < vec_capacity plans.old }
    ensures own { IsSeatOf vfs.now seat.new }
    ensures made { (n : ℕ) → made n seat.new ≡ option_or (made n seat.old) (made n worker.seat) }
    ensures left { plans.new.items ≡ plans.old.items ++ worker.left ∷ [] }
    ensures room { vec_capacity plans.new ≡ vec_capacity plans.old }
{
    let Worker { seat: other, left } = worker;
    vfs.join(seat, other);
    plans.push_reserved(left);
}

/// Takes the seats of all workers together, and puts what they have left back as plans.
fn gather(vfs: &Vfs, workers: &mut Vec<Worker>, plans: &mut Vec<Plan>) -> Seat
    requires some { 0 < vec_len workers.old }
    requires own { All (λ worker. IsSeatOf vfs.now worker.seat) workers.old.items }
    requires none { plans.old.items ≡ [] }
    requires room { vec_len workers.old ≤ vec_capacity plans.old }
    ensures own { IsSeatOf vfs.now result }
    ensures gathered { (calls : List (List Call)) → length calls ≡ vec_len workers.old → AreWorkers vfs.now calls workers.old.items → HasGathered vfs.now calls (vec_len workers.old) result plans.new.items }
{
    let Some(Worker { seat, left }) = workers.pop() else {
        unreachable!()
    };
    plans.push_reserved(left);
    let mut seat = seat;
    while let Some(worker) = workers.pop() {
        take_in(vfs, &mut seat, worker, plans);
    }
    seat
}

/// The kernel after the callers have made their calls, each on a thread of its own, and the calls that are left: those that
/// came back, for want of memory, and those behind them.
fn run_workers<R: Threads + Wait + Sync, G: Gate + Sync>(
    rt: &R,
    alloc: Global,
    gate: &G,
    kern: Kern,
    plans: Vec<Plan>,
) -> Result<(Kern, Vec<Plan>), AllocError>
    requires fresh { (kern.history ≡ []) × (kern.pending ≡ empty) }
    requires plans { vec_len plans ≡ kern.limits.callers }
    requires some { 0 < vec_len plans }
    requires few { vec_len plans ≤ 16 }
    ensures limits { IfOk result (λ t. t.0.limits ≡ kern.limits) }
    ensures idle { IfOk result (λ t. t.0.pending ≡ empty) }
    ensures calls { IfOk result (λ t. (vec_len t.1 ≡ vec_len plans) × ((c : ℕ) → IsUpTo (vec_len plans) c → calls_of c t.0.history ++ plan_at t.1.items c ≡ plan_at plans.items c)) }
{
    let mut plans = plans;
    let mut workers = Vec::with_capacity(alloc, plans.len())?;
    let (vfs, seat) = Vfs::new(rt, alloc, kern)?;
    hire(&vfs, seat, &mut plans, &mut workers);
    work_all(rt, alloc, &vfs, gate, &mut workers);
    let seat = gather(&vfs, &mut workers, &mut plans);
    Ok((vfs.close(rt, seat), plans))
}

/// A job of what is left of the script after the callers have made their calls, each on a thread of its own. The only fault is
/// want of memory.
fn job_left<R: Threads + Wait + Sync, G: Gate + Sync>(
    rt: &R,
    alloc: Global,
    gate: &G,
    script: Script,
) -> Result<Job, AllocError>
    requires { HasText script }
    ensures { IfOk result (IsAhead script) }
{
    let kern = Kern::new(alloc, script.limits)?;
    let plans = plans_of(alloc, script.limits.callers, script.lines.into_vec())?;
    let (kern, plans) = run_workers(rt, alloc, gate, kern, plans)?;
    let _history = kern.history();
    let lines = lines_of(alloc, plans)?;
    Job::new(alloc, kern, lines)
}

/// The kernel after all calls of the script, where each caller makes its calls on a thread of its own. The only fault is want
/// of memory.
pub fn run_together<R: Threads + Wait + Sync, G: Gate + Sync>(
    rt: &R,
    alloc: Global,
    gate: &G,
    script: Script,
) -> Result<Kern, AllocError>
    requires { HasText script }
    ensures { IfOk result (HasRun Together script) }
{
    let mut job = job_left(rt, alloc, gate, script)?;
    run_job(alloc, &mut job, Turns::Together)?;
    Ok(job.into_kern())
}
