ghost use Rattle.std.specs.Prelude.{◌≡◌, ◌++◌, flat_map, OnOk};
ghost use Rattle.std.specs.FinMap.{entries};
ghost use Rattle.trace_text.specs.Node.{run_text, runs_text, name_text, opaque_text, node_text};

use script_text::{put_number, put_word};
use std::alloc::AllocError;
use vfs_tree::{Name, NameEntry, NameMap, Node};

fn put_run(out: &mut Vec<u8>, offset: usize, part: &[u8]) -> Result<(), AllocError>
    ensures { OnOk result (out.new.items ≡ out.old.items ++ run_text offset part.now) }
{
    if part.is_empty() {
        return Ok(());
    }
    out.push(b' ')?;
    put_number(out, offset as u64)?;
    out.push(b':')?;
    put_word(out, part)
}

fn put_runs(out: &mut Vec<u8>, bytes: &[u8]) -> Result<(), AllocError>
    ensures { OnOk result (out.new.items ≡ out.old.items ++ runs_text bytes.now) }
{
    let mut start = 0;
    for (i, b) in bytes.iter().enumerate() {
        if *b == 0 {
            put_run(out, start, &bytes[start..i])?;
            start = i + 1;
        }
    }
    put_run(out, start, &bytes[start..])
}

fn put_name(out: &mut Vec<u8>, name: &Name, entry: NameEntry) -> Result<(), AllocError>
    ensures { OnOk result (out.new.items ≡ out.old.items ++ name_text name.now entry) }
{
    match entry {
        NameEntry::Ino { ino } => {
            out.extend_from_slice(b"name ")?;
            put_word(out, name.as_slice())?;
            out.push(b' ')?;
            put_number(out, u64::from(ino))?;
        }
        NameEntry::White => {
            out.extend_from_slice(b"white ")?;
            put_word(out, name.as_slice())?;
        }
    }
    out.extend_from_slice(b"\n")
}

fn put_names(out: &mut Vec<u8>, names: &NameMap<NameEntry>) -> Result<(), AllocError>
    ensures { OnOk result (out.new.items ≡ out.old.items ++ flat_map (λ e. name_text e.0 e.1) (entries names.now)) }
{
    for (name, entry) in names.iter() {
        put_name(out, name, *entry)?;
    }
    Ok(())
}

fn opaque_word(opaque: bool) -> &'static [u8]
    ensures { result.now ≡ opaque_text opaque }
{
    if opaque { b" opaque\n" } else { b" plain\n" }
}

/// Appends the lines of a node. The only fault is want of memory.
pub fn put_node(out: &mut Vec<u8>, ino: u32, node: &Node) -> Result<(), AllocError>
    ensures { OnOk result (out.new.items ≡ out.old.items ++ node_text ino node.now) }
{
    match node {
        Node::Dir {
            parent,
            opaque,
            names,
        } => {
            out.extend_from_slice(b"dir ")?;
            put_number(out, u64::from(ino))?;
            out.push(b' ')?;
            put_number(out, u64::from(*parent))?;
            out.extend_from_slice(opaque_word(*opaque))?;
            put_names(out, names)
        }
        Node::File { bytes } => {
            out.extend_from_slice(b"file ")?;
            put_number(out, u64::from(ino))?;
            out.push(b' ')?;
            put_number(out, bytes.len() as u64)?;
            put_runs(out, bytes.as_slice())?;
            out.extend_from_slice(b"\n")
        }
        Node::Link { target } => {
            out.extend_from_slice(b"link ")?;
            put_number(out, u64::from(ino))?;
            out.push(b' ')?;
            put_word(out, target.as_slice())?;
            out.extend_from_slice(b"\n")
        }
    }
}
