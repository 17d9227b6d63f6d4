ghost use Rattle.std.specs.Prelude.{◌≡◌, ◌++◌, IfOk, OnOk};
ghost use Rattle.std.specs.List.{flat_map};
ghost use Rattle.script_text.specs.declared.script.Script.{Script};
ghost use Rattle.script_text.specs.Line.{ended_line};
ghost use Rattle.script_text.specs.Script.{head_text, script_text, IsTextOf, HasText};

use crate::limits::{put_limits, tests_default};
use crate::printing::put_line;
use crate::script::Script;
use call_model::Line;
use std::alloc::{AllocError, Global};
use vfs_tree::{Bytes, Limits};

fn put_ended_line(out: &mut Vec<u8>, line: &Line) -> Result<(), AllocError>
    ensures { OnOk result (out.new.items ≡ out.old.items ++ ended_line line.now) }
{
    put_line(out, line)?;
    out.push(b'\n')?;
    Ok(())
}

fn put_lines(out: &mut Vec<u8>, lines: &[Line]) -> Result<(), AllocError>
    ensures { OnOk result (out.new.items ≡ out.old.items ++ flat_map ended_line lines.now) }
{
    for line in lines {
        put_ended_line(out, line)?;
    }
    Ok(())
}

/// The first line, and the limits line unless the limits are the default ones.
fn head_of(alloc: Global, limits: &Limits) -> Result<Vec<u8>, AllocError>
    ensures { IfOk result (λ head. head.items ≡ head_text limits.now) }
{
    let mut head = Vec::from_slice(alloc, b"vfs 1\n")?;
    if !tests_default(limits) {
        put_limits(&mut head, limits)?;
        head.push(b'\n')?;
    }
    Ok(head)
}

/// The one text of the script, in which default limits are left out. The only fault is want of memory.
pub fn print_script(alloc: Global, script: &Script) -> Result<Bytes, AllocError>
    requires { HasText script.now }
    ensures text { IfOk result (λ text. text ≡ script_text script.now) }
    // No other script has this text, so that reading it gives the script.
    ensures reread { IfOk result (λ text. (other : Script) → HasText other → IsTextOf other text → other ≡ script.now) }
{
    let mut out = head_of(alloc, &script.limits)?;
    put_lines(&mut out, script.lines.as_slice())?;
    out.extend_from_slice(b"end\n")?;
    Ok(Bytes::of(out))
}
