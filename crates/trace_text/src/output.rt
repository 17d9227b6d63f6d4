ghost use Rattle.std.specs.Prelude.{◌≡◌, ◌++◌, OnOk, OnErr};
ghost use Rattle.trace_text.specs.History.{history_text};
ghost use Rattle.trace_text.specs.Trees.{trees_text};
ghost use Rattle.trace_text.specs.Output.{first_line, trees_line, last_line, output_text};
ghost use Rattle.trace_text.specs.Summary.{summary_text};

use crate::history::put_entries;
use crate::summary::put_summary;
use crate::trees::put_trees;
use call_model::History;
use std::alloc::Global;
use vfs_tree::{Bytes, NoMemory, World};

/// The first line of an output, with its line end.
pub fn first_line() -> &'static [u8]
    ensures { result.now ≡ first_line }
{
    b"vfs output 1\n"
}

/// The line between the history and the trees, with its line end.
pub fn trees_line() -> &'static [u8]
    ensures { result.now ≡ trees_line }
{
    b"trees\n"
}

/// The last line of an output, with its line end.
pub fn last_line() -> &'static [u8]
    ensures { result.now ≡ last_line }
{
    b"end\n"
}

/// Appends the text of a history: one line for each entry, with its line end.
///
/// A call is its script line, ` = ` and the reply; an inner entry is the caller, ` + ` and what happened. The only
/// fault is want of memory.
pub fn print_history(alloc: Global, h: &History, out: &mut Bytes) -> Result<(), NoMemory>
    ensures ok { OnOk result (out.new ≡ out.old ++ history_text h.now.entries) }
    ensures err { OnErr result (out.new ≡ out.old) }
{
    let mut text = Vec::new(alloc);
    put_entries(&mut text, h.as_slice())?;
    out.extend_from_slice(text.as_slice())
}

/// Appends the trees of a world: one line for each mount in the order of their numbers, a memory mount followed by the
/// nodes of its store in the order of their inode numbers, as far as they are the root or some name gives them.
///
/// The only fault is want of memory.
pub fn print_trees(alloc: Global, w: &World, out: &mut Bytes) -> Result<(), NoMemory>
    ensures ok { OnOk result (out.new ≡ out.old ++ trees_text w.now) }
    ensures err { OnErr result (out.new ≡ out.old) }
{
    let mut text = Vec::new(alloc);
    put_trees(alloc, &mut text, w)?;
    out.extend_from_slice(text.as_slice())
}

/// Appends the whole output of a run: `vfs output 1`, the history, `trees`, the trees of the world that it left, and
/// `end`, each line with its line end.
///
/// The only fault is want of memory.
pub fn print_output(alloc: Global, h: &History, w: &World, out: &mut Bytes) -> Result<(), NoMemory>
    ensures ok { OnOk result (out.new ≡ out.old ++ output_text h.now.entries w.now) }
    ensures err { OnErr result (out.new ≡ out.old) }
{
    let mut text = Bytes::new(alloc);
    text.extend_from_slice(first_line())?;
    print_history(alloc, h, &mut text)?;
    text.extend_from_slice(trees_line())?;
    print_trees(alloc, w, &mut text)?;
    text.extend_from_slice(last_line())?;
    out.extend_from_slice(text.as_slice())
}

/// Appends the summary of a run: how many calls it has, how many callers with a call, how many calls that were done,
/// that were refused and that found no memory, how many inner entries, and how many entries in all; how many mounts
/// the world that it left has; and `end`. Each stands in a line of its own.
///
/// The only fault is want of memory.
pub fn print_summary(alloc: Global, h: &History, w: &World, out: &mut Bytes) -> Result<(), NoMemory>
    ensures ok { OnOk result (out.new ≡ out.old ++ summary_text h.now.entries w.now) }
    ensures err { OnErr result (out.new ≡ out.old) }
{
    let mut text = Vec::new(alloc);
    put_summary(alloc, &mut text, h.as_slice(), w)?;
    out.extend_from_slice(text.as_slice())
}
