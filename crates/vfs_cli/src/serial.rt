ghost use Rattle.std.specs.Prelude.{◌≡◌, ◌≢◌, ◌⊎◌, ◌<◌, ℕ, List, length, false, map, string_bytes, Some, IfOk};
ghost use Rattle.script_text.specs.Script.{HasText, IsTextOf};
ghost use Rattle.script_text.specs.declared.script.Script.{Script};
ghost use Rattle.vfs_cli.specs.declared.words.Command.{Command};
ghost use Rattle.vfs_cli.specs.declared.words.Command.TheVariants.{Run};
ghost use Rattle.vfs_cli.specs.declared.words.Turns.{Turns};
ghost use Rattle.vfs_cli.specs.Words.{serial_command_of, reads};
ghost use Rattle.vfs_cli.specs.Outcome.{Outcome, PutMade, TakesScript, Told, Written, bad_text, effects, reading, status_of, writing};
ghost use Rattle.vfs_cli.specs.Serving.{Serves};

use crate::running::{run_calls, show, sum_up};
use crate::words::{Command, Turns, serial_command_of};
use crate::writing::write_run;
use itoa::Buffer;
use script_text::{Script, ScriptFault, put_number, read_script};
use std::alloc::{AllocError, Global};
use vfs_flow::{Sink, Source, SureSink, SureSource, WholeRead, WholeWrite, read_to_end, write_all};
use vfs_tree::Bytes;

/// The most bytes that are read of a script, one more than a script may have.
const READ_LIMIT: usize = 1_048_577;

/// How a run ends.
#[derive(Clone, Copy, Debug, PartialEq, Eq)]
pub enum Ending {
    /// The whole was done.
    Done,
    /// Memory was wanting.
    NoMemory,
    /// The source has more bytes than a script may have.
    TooLong,
    /// The words are no command.
    Usage,
    /// The bytes are no script.
    BadScript {
        /// The first line that isn't lawful at its place, counted from 1.
        line: u32,
    },
    /// The source failed.
    ReadFault,
    /// The sink failed.
    WriteFault,
}

/// Writes a text.
pub fn put<K: Sink>(sink: &mut K, text: &[u8]) -> Ending
    ensures { Written (writing K.written K.faults sink.old sink.new) text.now result }
{
    match write_all(sink, text) {
        WholeWrite::Done => Ending::Done,
        WholeWrite::Failed => Ending::WriteFault,
        WholeWrite::NoMemory => Ending::NoMemory,
    }
}

/// The text `bad line N` and a line end. The only fault is want of memory.
fn text_of(alloc: Global, line: u32) -> Result<Vec<u8>, AllocError>
    ensures { IfOk result (λ text. text.items ≡ bad_text line) }
{
    let mut text = Vec::from_slice(alloc, b"bad line ")?;
    put_number(&mut text, u64::from(line))?;
    text.push(b'\n')?;
    Ok(text)
}

/// Writes which line is bad.
fn tell_bad_line<K: Sink>(alloc: Global, sink: &mut K, line: u32) -> Ending
    ensures { Told (writing K.written K.faults sink.old sink.new) line result }
{
    let text = match text_of(alloc, line) {
        Ok(text) => text,
        Err(_) => return Ending::NoMemory,
    };
    match write_all(sink, &text) {
        WholeWrite::Done => Ending::BadScript { line },
        WholeWrite::Failed => Ending::WriteFault,
        WholeWrite::NoMemory => Ending::NoMemory,
    }
}

/// Reads a script. Where the bytes are none, which line is bad is written; the ending is then that of the run.
pub fn take_script<S: Source, K: Sink>(
    alloc: Global,
    source: &mut S,
    sink: &mut K,
) -> Result<Script, Ending>
    ensures { TakesScript (effects (reading S.left S.faults source.old source.new) (writing K.written K.faults sink.old sink.new)) result }
{
    let bytes = match read_to_end(alloc, source, READ_LIMIT) {
        WholeRead::All { bytes } => bytes,
        WholeRead::TooLong => return Err(Ending::TooLong),
        WholeRead::Failed => return Err(Ending::ReadFault),
        WholeRead::NoMemory => return Err(Ending::NoMemory),
    };
    match read_script(alloc, &bytes) {
        Ok(script) => Ok(script),
        Err(ScriptFault::BadLine { line }) => Err(tell_bad_line(alloc, sink, line)),
        Err(ScriptFault::NoMemory) => Err(Ending::NoMemory),
    }
}

/// Reads a script, runs it, and writes its output, once all calls are made.
fn run_script<S: Source, K: Sink>(
    alloc: Global,
    turns: Turns,
    source: &mut S,
    sink: &mut K,
) -> Ending
    ensures { Outcome (Some (Run turns)) (effects (reading S.left S.faults source.old source.new) (writing K.written K.faults sink.old sink.new)) result }
{
    let script = match take_script(alloc, source, sink) {
        Ok(script) => script,
        Err(ending) => return ending,
    };
    match run_calls(alloc, script, turns) {
        Ok(kern) => write_run(alloc, sink, &kern),
        Err(_) => Ending::NoMemory,
    }
}

/// Writes a text that was made, unless memory was wanting for it.
fn put_made<K: Sink>(sink: &mut K, text: Result<Bytes, AllocError>) -> Ending
    ensures { PutMade (writing K.written K.faults sink.old sink.new) text result }
{
    match text {
        Ok(text) => put(sink, text.as_slice()),
        Err(_) => Ending::NoMemory,
    }
}

/// Does what the words say, on one thread.
fn serve<S: Source, K: Sink>(
    alloc: Global,
    words: &[String],
    source: &mut S,
    sink: &mut K,
) -> Ending
    ensures { Outcome (serial_command_of (map string_bytes words.now))
        (effects (reading S.left S.faults source.old source.new) (writing K.written K.faults sink.old sink.new)) result }
{
    match serial_command_of(words) {
        Some(Command::Run { turns }) => run_script(alloc, turns, source, sink),
        Some(Command::Gen { seed, calls }) => put_made(sink, sum_up(alloc, seed, calls)),
        Some(Command::Show { seed, calls }) => put_made(sink, show(alloc, seed, calls)),
        None => Ending::Usage,
    }
}

/// How a run ended, for the exit status: `line` is 0, but for 65 the number of the bad line.
#[derive(Clone, Copy, Debug, PartialEq, Eq)]
pub struct Status {
    /// 0, or the exit status of a fault.
    pub code: u32,
    /// The number of a line that is no script line.
    pub line: u32,
}

/// The status of an ending; the numbers are those of sysexits(3) where it has one, and of errno(2) else.
pub fn status_of(ending: Ending) -> Status
    ensures { result ≡ status_of ending }
{
    let code = match ending {
        Ending::Done => 0,
        Ending::NoMemory => 12,
        Ending::TooLong => 27,
        Ending::Usage => 64,
        Ending::BadScript { line } => return Status { code: 65, line },
        Ending::ReadFault => 74,
        Ending::WriteFault => 75,
    };
    Status { code, line: 0 }
}

/// Does what the words after the program's name say: `run --seed N` and `run --order` read a script from the source, run
/// it, and write the history of all calls and the final trees to the sink; `gen --seed N --calls K` makes a script, runs it
/// and writes the summary of its history; `show --seed N --calls K` writes the script that it makes. N is a number of 64
/// bits, K one of 8 to 4,096. It waits for nobody, and always returns; the word `run` alone is no command here.
///
/// Where the bytes are no script, `bad line` and the number of the first line that isn't lawful at its place are written.
pub fn serial_main<S: Source, K: Sink>(
    alloc: Global,
    words: &[String],
    source: &mut S,
    sink: &mut K,
) -> Status
    // The whole contract, one fact a field: the cause of each status, what was read and written with it, and completeness.
    ensures { Serves (serial_command_of (map string_bytes words.now))
        (effects (reading S.left S.faults source.old source.new) (writing K.written K.faults sink.old sink.new)) result }
{
    status_of(serve(alloc, words, source, sink))
}

/// A run over a source and a sink that never fail.
pub fn sure_main(
    alloc: Global,
    words: &[String],
    source: &mut SureSource,
    sink: &mut SureSink,
) -> Status
    ensures no_read_fault { result.code ≢ 74 }
    ensures no_write_fault { result.code ≢ 75 }
    ensures complete { (turns : Turns) (script : Script) (bytes : List ℕ) → HasText script → IsTextOf script bytes → length bytes < 1048577
        → serial_command_of (map string_bytes words.now) ≡ Some (Run turns) → source.old ≡ bytes
        → (result.code ≡ 0) ⊎ (result.code ≡ 12) }
    ensures complete_made { (command : Command) → serial_command_of (map string_bytes words.now) ≡ Some command → reads command ≡ false
        → (result.code ≡ 0) ⊎ (result.code ≡ 12) }
{
    serial_main(alloc, words, source, sink)
}
