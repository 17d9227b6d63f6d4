ghost use Rattle.std.specs.Prelude.{◌≡◌, [], ◌∷◌, ◌++◌, OnOk};
ghost use Rattle.trace_text.specs.History.{entry_text, entry_line, history_text};

use crate::inner::put_inner;
use crate::reply::put_reply;
use call_model::Entry;
use script_text::{put_call, put_number};
use std::alloc::AllocError;

fn put_entry(out: &mut Vec<u8>, entry: &Entry) -> Result<(), AllocError>
    ensures { OnOk result (out.new.items ≡ out.old.items ++ entry_text entry.now) }
{
    match entry {
        Entry::Call {
            caller,
            call,
            reply,
        } => {
            put_call(out, *caller, call)?;
            out.extend_from_slice(b" = ")?;
            put_reply(out, reply)
        }
        Entry::Inner { caller, what } => {
            put_number(out, u64::from(*caller))?;
            out.extend_from_slice(b" + ")?;
            put_inner(out, what)
        }
    }
}

/// Appends the line of an entry, with its line end. The only fault is want of memory.
pub fn put_entry_line(out: &mut Vec<u8>, entry: &Entry) -> Result<(), AllocError>
    ensures { OnOk result (out.new.items ≡ out.old.items ++ entry_line entry.now) }
{
    put_entry(out, entry)?;
    out.extend_from_slice(b"\n")
}

/// Appends the lines of the entries. The only fault is want of memory.
pub fn put_entries(out: &mut Vec<u8>, entries: &[Entry]) -> Result<(), AllocError>
    ensures { OnOk result (out.new.items ≡ out.old.items ++ history_text entries.now) }
{
    for entry in entries {
        put_entry_line(out, entry)?;
    }
    Ok(())
}
