ghost use Rattle.std.specs.Prelude.{◌++◌};
ghost use Rattle.trace_text.specs.History.{history_text};
ghost use Rattle.trace_flow.specs.Moves.{Passes};

use crate::piece::{Halt, pass};
use call_model::Entry;
use trace_text::put_entry_line;
use vfs_flow::Sink;

/// Writes the lines of the entries, by way of the buffer.
pub fn write_entries<K: Sink>(
    sink: &mut K,
    buffer: &mut Vec<u8>,
    entries: &[Entry],
) -> Result<(), Halt>
    ensures { Passes K.written K.faults sink.old sink.new (buffer.old.items ++ history_text entries.now) buffer.new.items result }
{
    for entry in entries {
        put_entry_line(buffer, entry)?;
        pass(sink, buffer)?;
    }
    Ok(())
}
