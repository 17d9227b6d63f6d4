// The program's top call.
ghost use Rattle.std.specs.Prelude.{◌≡◌, true, false, map, string_bytes, Some};
ghost use Rattle.vfs_cli.specs.declared.words.Command.TheVariants.{Run};
ghost use Rattle.vfs_cli.specs.declared.words.Turns.{Turns};
ghost use Rattle.vfs_cli.specs.declared.words.Turns.TheVariants.{Together};
ghost use Rattle.vfs_cli.specs.Words.{command_of, serial_command_of};
ghost use Rattle.vfs_cli.specs.Outcome.{Outcome, effects, reading, writing};
ghost use Rattle.vfs_cli.specs.Serving.{RanScript, Serves};

use crate::serial::{Ending, Status, serial_main, status_of, take_script};
use crate::together::run_together;
use crate::words::{Command, Turns, command_of};
use crate::writing::write_run;
use std::alloc::Global;
use std::sync::Wait;
use std::thread::Threads;
use vfs_flow::{Gate, Sink, Source};

/// Reads a script, runs it with a thread for each caller, and writes its output.
fn run_threads<R: Threads + Wait + Sync, S: Source, K: Sink, G: Gate + Sync>(
    rt: &R,
    alloc: Global,
    source: &mut S,
    sink: &mut K,
    gate: &G,
) -> Ending
    ensures { Outcome (Some (Run Together)) (effects (reading S.left S.faults source.old source.new) (writing K.written K.faults sink.old sink.new)) result }
{
    let script = match take_script(alloc, source, sink) {
        Ok(script) => script,
        Err(ending) => return ending,
    };
    match run_together(rt, alloc, gate, script) {
        Ok(kern) => write_run(alloc, sink, &kern),
        Err(_) => Ending::NoMemory,
    }
}

/// Whether the words are `run` alone.
fn is_together(words: &[String]) -> bool
    ensures together { result ≡ true → command_of (map string_bytes words.now) ≡ Some (Run Together) }
    ensures serial { result ≡ false → serial_command_of (map string_bytes words.now) ≡ command_of (map string_bytes words.now) }
{
    let together = Command::Run {
        turns: Turns::Together,
    };
    command_of(words) == Some(together)
}

/// Does what the words after the program's name say. `run` reads a script from the source and runs it with a thread for each
/// caller, which asks the gate before each of its calls and tells it after each answer; every other list of words is that of
/// `serial_main`.
///
/// Of `run` the same is promised as of the other runs, where it returns: it waits for the threads, and each thread waits for
/// its turns. In which order the calls of different callers come isn't said.
pub fn vfs_main<R: Threads + Wait + Sync, S: Source, K: Sink, G: Gate + Sync>(
    rt: &R,
    alloc: Global,
    words: &[String],
    source: &mut S,
    sink: &mut K,
    gate: &G,
) -> Status
    // The whole contract, one fact a field: the cause of each status, what was read and written with it, and completeness.
    ensures serves { Serves (command_of (map string_bytes words.now))
        (effects (reading S.left S.faults source.old source.new) (writing K.written K.faults sink.old sink.new)) result }
    // The headline, once more. Status 0 of a run: the bytes, to the end of the source, are the text of a script; what was
    // written is the output of a legal history, in which each caller's calls are those of the script, and of the world that
    // the history leaves. Where the lines were run in their order, the call entries of the history are the lines.
    ensures headline { result.code ≡ 0 → (turns : Turns) → command_of (map string_bytes words.now) ≡ Some (Run turns)
        → RanScript turns (effects (reading S.left S.faults source.old source.new) (writing K.written K.faults sink.old sink.new)) }
{
    if is_together(words) {
        status_of(run_threads(rt, alloc, source, sink, gate))
    } else {
        serial_main(alloc, words, source, sink)
    }
}
