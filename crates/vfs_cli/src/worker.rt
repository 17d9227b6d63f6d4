// Workers, which make the calls of one caller each, and the gate that may hold them up.
ghost use Rattle.std.specs.Prelude.{◌≡◌, ◌<◌, ℕ, All, length, slice_index_or};
ghost use Rattle.vfs_core.specs.Seats.{IsSeatOf};
ghost use Rattle.vfs_cli.specs.Workers.{Worked};
ghost use Rattle.vfs_cli.specs.declared.worker.Worker.{Worker};

use crate::plan::Plan;
use std::alloc::Global;
use std::sync::Wait;
use std::thread;
use std::thread::Threads;
use vfs_core::{Seat, Vfs};
use vfs_flow::{Gate, Pace};

/// How often a worker is held before one call; then it goes on.
const MOST_HOLDS: u32 = 100_000_000;

/// The most callers that a script has, and so the most workers.
const MOST_WORKERS: usize = 16;

/// A worker: a caller's seat, and the calls that it has yet to make.
#[derive(Drop)]
pub struct Worker {
    /// The seat.
    pub seat: Seat,
    /// The calls.
    pub left: Plan,
}

/// Waits until the gate lets a call go, or has held it often enough.
fn wait_at<G: Gate>(gate: &G, caller: u32, call: u32) {
    for _ in 0..MOST_HOLDS {
        if gate.before(caller, call) == Pace::Go {
            return;
        }
        thread::yield_now();
    }
}

/// Makes the calls of a worker, one after the other, until none is left or one comes back, which is left then.
fn work<R: Wait, G: Gate>(rt: &R, alloc: Global, vfs: &Vfs, gate: &G, worker: &mut Worker)
    requires { IsSeatOf vfs.now worker.old.seat }
    ensures { Worked vfs.now worker.old worker.new }
{
    let caller = worker.seat.caller();
    for call in 0..u32::MAX {
        if worker.left.is_empty() {
            return;
        }
        wait_at(gate, caller, call);
        if !worker.left.make_next(rt, alloc, vfs, &mut worker.seat) {
            return;
        }
        gate.told(caller, call);
    }
}

/// Lets each worker make its calls on a thread of its own.
pub fn work_all<R: Threads + Wait + Sync, G: Gate + Sync>(
    rt: &R,
    alloc: Global,
    vfs: &Vfs,
    gate: &G,
    workers: &mut [Worker],
)
    requires { All (λ worker. IsSeatOf vfs.now worker.seat) workers.old }
    ensures count { length workers.new ≡ length workers.old }
    ensures worked { (i : ℕ) (d : Worker) → i < length workers.old → Worked vfs.now (slice_index_or workers.old i d) (slice_index_or workers.new i d) }
{
    thread::for_each_mut(
        rt,
        workers,
        MOST_WORKERS,
        &|_, worker| work(rt, alloc, vfs, gate, worker),
    );
}
