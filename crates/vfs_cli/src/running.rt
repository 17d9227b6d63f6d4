// From a script to what is written of it.
ghost use Rattle.std.specs.Prelude.{◌≡◌, ◌≤◌, ℕ, IfOk, OnOk};
ghost use Rattle.script_text.specs.Script.{HasText, script_text};
ghost use Rattle.script_text.specs.declared.script.Script.{Script};
ghost use Rattle.trace_text.specs.Summary.{summary_text};
ghost use Rattle.vfs_core.specs.Turning.{Runs, IsDone};
ghost use Rattle.vfs_cli.specs.Output.{IsFor, HasRun, TakesTurns, Sums, generated};
ghost use Rattle.vfs_cli.specs.declared.words.Turns.{Turns};

use crate::words::Turns;
use call_model::History;
use script_text::{Script, gen_script, print_script};
use std::alloc::{AllocError, Global};
use trace_text::print_summary;
use vfs_core::{Job, Kern};
use vfs_tree::{Bytes, World};

/// Runs all calls of a job. The only fault is want of memory.
pub fn run_job(alloc: Global, job: &mut Job, turns: Turns) -> Result<(), AllocError>
    ensures runs { Runs job.old job.new }
    ensures done { OnOk result ((c : ℕ) → IsDone job.new c) }
    ensures in_turn { OnOk result (TakesTurns turns job.old job.new) }
{
    match turns {
        Turns::Scattered { seed } => job.run_seed(alloc, seed),
        // What callers on threads of their own have left is run line by line.
        Turns::InOrder | Turns::Together => job.run_order(alloc),
    }
}

/// A job of the calls of the script. The only fault is want of memory.
pub fn job_of(alloc: Global, script: Script) -> Result<Job, AllocError>
    requires { HasText script }
    ensures { IfOk result (IsFor script) }
{
    let kern = Kern::new(alloc, script.limits)?;
    Job::new(alloc, kern, script.lines.into_vec())
}

/// The kernel after all calls of the script. The only fault is want of memory.
pub fn run_calls(alloc: Global, script: Script, turns: Turns) -> Result<Kern, AllocError>
    requires { HasText script }
    ensures { IfOk result (HasRun turns script) }
{
    let mut job = job_of(alloc, script)?;
    run_job(alloc, &mut job, turns)?;
    Ok(job.into_kern())
}

/// The summary of a history and of a world. The only fault is want of memory.
fn summary(alloc: Global, history: &History, world: &World) -> Result<Bytes, AllocError>
    ensures { IfOk result (λ text. text ≡ summary_text history.now.entries world.now) }
{
    let mut summary = Bytes::new(alloc);
    print_summary(alloc, history, world, &mut summary)?;
    Ok(summary)
}

/// The summary of a run, by the kernel after all calls. The only fault is want of memory.
fn summary_of(alloc: Global, kern: &Kern) -> Result<Bytes, AllocError>
    ensures { (turns : Turns) (script : Script) → HasRun turns script kern.now → IfOk result (Sums script) }
{
    let history = kern.history();
    match kern.world(alloc) {
        Ok(world) => summary(alloc, history, &world),
        Err(error) => Err(error),
    }
}

/// The summary of a run of the script that the generator makes of the seed, with its turns by the same seed. The only
/// fault is want of memory.
pub fn sum_up(alloc: Global, seed: u64, calls: u32) -> Result<Bytes, AllocError>
    requires setup { 8 ≤ calls }
    requires few { calls ≤ 4096 }
    ensures { IfOk result (Sums (generated seed calls)) }
{
    let script = gen_script(alloc, seed, calls)?;
    let kern = run_calls(alloc, script, Turns::Scattered { seed })?;
    summary_of(alloc, &kern)
}

/// The text of the script that the generator makes of the seed. The only fault is want of memory.
pub fn show(alloc: Global, seed: u64, calls: u32) -> Result<Bytes, AllocError>
    requires setup { 8 ≤ calls }
    requires few { calls ≤ 4096 }
    ensures { IfOk result (λ text. text ≡ script_text (generated seed calls)) }
{
    let script = gen_script(alloc, seed, calls)?;
    print_script(alloc, &script)
}
