// The output of a run, written as it is made.
ghost use Rattle.script_text.specs.declared.script.Script.{Script};
ghost use Rattle.vfs_cli.specs.Outcome.{WroteOutput, writing};
ghost use Rattle.vfs_cli.specs.Output.{HasRun};
ghost use Rattle.vfs_cli.specs.declared.words.Turns.{Turns};

use crate::serial::Ending;
use std::alloc::Global;
use trace_flow::write_output;
use vfs_core::Kern;
use vfs_flow::{Sink, WholeWrite};

/// Writes the output of a run, by the kernel after all calls, while it is made. Where memory is wanting a front of it was
/// written.
pub fn write_run<K: Sink>(alloc: Global, sink: &mut K, kern: &Kern) -> Ending
    ensures { (turns : Turns) (script : Script) → HasRun turns script kern.now → WroteOutput turns script (writing K.written K.faults sink.old sink.new) result }
{
    let history = kern.history();
    let world = match kern.world(alloc) {
        Ok(world) => world,
        Err(_) => return Ending::NoMemory,
    };
    match write_output(alloc, sink, history, &world) {
        WholeWrite::Done => Ending::Done,
        WholeWrite::Failed => Ending::WriteFault,
        WholeWrite::NoMemory => Ending::NoMemory,
    }
}
