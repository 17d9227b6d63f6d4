ghost use Rattle.std.specs.Prelude.{◌≡◌, ◌≤◌, [], ◌++◌};
ghost use Rattle.vfs_flow.specs.Faults.{Rose};
ghost use Rattle.vfs_flow.specs.Whole.{WritesWhole};
ghost use Rattle.trace_text.specs.Output.{output_text};
ghost use Rattle.trace_flow.specs.Moves.{Passes};

use crate::history::write_entries;
use crate::piece::{Halt, flush};
use crate::trees::write_trees;
use call_model::History;
use std::alloc::Global;
use trace_text::{first_line, last_line, trees_line};
use vfs_flow::{Sink, WholeWrite};
use vfs_tree::World;

/// Writes the output part after part, by way of a buffer.
fn write_parts<K: Sink>(
    alloc: Global,
    sink: &mut K,
    history: &History,
    world: &World,
) -> Result<(), Halt>
    ensures { Passes K.written K.faults sink.old sink.new (output_text history.now.entries world.now) [] result }
{
    let mut buffer = Vec::from_slice(alloc, first_line())?;
    write_entries(sink, &mut buffer, history.as_slice())?;
    buffer.extend_from_slice(trees_line())?;
    write_trees(alloc, sink, &mut buffer, world)?;
    buffer.extend_from_slice(last_line())?;
    flush(sink, &mut buffer)
}

/// Writes the whole output of a run as it is made: `vfs output 1`, the history, `trees`, the trees of the world that it
/// left, and `end`, each line with its line end.
///
/// The sink gets pieces of 64 KiB and up to a line or a node more, and at the end the rest. With every answer but `Done` a
/// front of the output was written. `Failed` comes only where the sink's count of faults rose.
pub fn write_output<K: Sink>(
    alloc: Global,
    sink: &mut K,
    history: &History,
    world: &World,
) -> WholeWrite
    ensures bytes { WritesWhole (K.written sink.old) (K.written sink.new) (output_text history.now.entries world.now) result }
    ensures never_falls { K.faults sink.old ≤ K.faults sink.new }
    ensures cause { result ≡ WholeWrite.Failed → Rose (K.faults sink.old) (K.faults sink.new) }
{
    match write_parts(alloc, sink, history, world) {
        Ok(()) => WholeWrite::Done,
        Err(Halt::Failed) => WholeWrite::Failed,
        Err(Halt::NoMemory) => WholeWrite::NoMemory,
    }
}
