ghost use Rattle.std.specs.Prelude.{◌≡◌, ℕ, ◌+◌, ◌<◌, ◌≤◌, ◌^◌, ◌==◌, length, map, IfOk, IfSome, Err};
ghost use Rattle.std.specs.List.{slice_split};
ghost use Rattle.script_text.specs.declared.fault.ScriptFault.TheVariants.{BadLine};
ghost use Rattle.script_text.specs.declared.script.Script.{Script};
ghost use Rattle.script_text.specs.Reading.{Reads};
ghost use Rattle.script_text.specs.ReadScript.{is_rest, step_at, lines_at, second_at, body_by, script_at};
ghost use Rattle.script_text.specs.Script.{HasText, IsTextOf, Answers};
ghost use Rattle.script_text.specs.BadLine.{IsBadLine};

use crate::cut::parts;
use crate::fault::{LineFault, ScriptFault};
use crate::limits::limits_of;
use crate::line::line_of;
use crate::script::{Lines, Script};
use call_model::Line;
use std::alloc::{AllocError, Global};
use vfs_tree::Limits;

fn tests_rest(rest: &[&[u8]]) -> bool
    ensures { result ≡ is_rest (map (λ w. w.now) rest.now) }
{
    rest.len() == 1 && rest[0].is_empty()
}

/// The call of the line of this number; none at the line `end`. The parts behind it tell whether it has its line end,
/// and whether anything follows.
#[tactic(auto, unfolding(crate::specs::ReadScript::step_at))]
fn next_call(
    alloc: Global,
    scratch: &mut Vec<u8>,
    callers: u32,
    full: bool,
    number: u32,
    text: &[u8],
    rest: &[&[u8]],
) -> Result<Option<Line>, ScriptFault>
    requires { number + 1 < 2 ^ 32 }
    ensures { Reads (λ x. x) result (step_at callers full number text.now (map (λ w. w.now) rest.now)) }
{
    if rest.is_empty() {
        return Err(ScriptFault::BadLine { line: number });
    }
    if text == b"end".as_slice() {
        if tests_rest(rest) {
            return Ok(None);
        }
        return Err(ScriptFault::BadLine { line: number + 1 });
    }
    if full {
        return Err(ScriptFault::BadLine { line: number });
    }
    match line_of(alloc, scratch, callers, text) {
        Ok(line) => Ok(Some(line)),
        Err(LineFault::Bad) => Err(ScriptFault::BadLine { line: number }),
        Err(LineFault::NoMemory) => Err(ScriptFault::NoMemory),
    }
}

/// The calls of these lines up to the line `end`, at most 4,096, of which the first has this number.
fn lines_of(
    alloc: Global,
    callers: u32,
    first: u32,
    texts: &[&[u8]],
) -> Result<Vec<Line>, ScriptFault>
    requires { first < 4 }
    ensures { Reads (λ v. v.items) result (lines_at callers 4096 first (map (λ w. w.now) texts.now)) }
{
    let mut scratch = Vec::new(alloc);
    let mut lines = Vec::new(alloc);
    let mut left = 4096;
    for (i, text) in texts.iter().enumerate() {
        let number = first + (4096 - left);
        let next = next_call(
            alloc,
            &mut scratch,
            callers,
            left == 0,
            number,
            text,
            &texts[i + 1..],
        )?;
        let Some(line) = next else {
            return Ok(lines);
        };
        lines.push(line)?;
        left -= 1;
    }
    Err(ScriptFault::BadLine {
        line: first + (4096 - left),
    })
}

/// The limits of the second line, if that is a limits line.
#[tactic(auto, unfolding(crate::specs::ReadScript::second_at))]
fn limits_of_second(alloc: Global, texts: &[&[u8]]) -> Result<Option<Limits>, AllocError>
    ensures value { IfOk result (λ limits. limits ≡ second_at (map (λ w. w.now) texts.now)) }
    ensures within { IfOk result (λ limits. IfSome limits (λ _. 1 ≤ length texts.now)) }
{
    match texts {
        [text, _, ..] => match limits_of(alloc, text) {
            Ok(limits) => Ok(Some(limits)),
            Err(LineFault::Bad) => Ok(None),
            Err(LineFault::NoMemory) => Err(AllocError),
        },
        _ => Ok(None),
    }
}

/// The script whose lines after the first are these.
fn body_of(alloc: Global, texts: &[&[u8]]) -> Result<Script, ScriptFault>
    ensures { Reads (λ x. x) result (body_by (second_at (map (λ w. w.now) texts.now)) (map (λ w. w.now) texts.now)) }
{
    match limits_of_second(alloc, texts)? {
        Some(limits) => {
            let lines = lines_of(alloc, limits.callers, 3, &texts[1..])?;
            Ok(Script {
                limits,
                lines: Lines::of(lines),
            })
        }
        None => {
            let lines = lines_of(alloc, Limits::DEFAULT.callers, 2, texts)?;
            Ok(Script {
                limits: Limits::DEFAULT,
                lines: Lines::of(lines),
            })
        }
    }
}

#[tactic(auto, unfolding(crate::specs::ReadScript::script_at))]
fn script_of(alloc: Global, bytes: &[u8]) -> Result<Script, ScriptFault>
    ensures { Reads (λ x. x) result (script_at (slice_split (λ b. b == 10) bytes.now)) }
{
    let texts = parts(alloc, bytes, b'\n')?;
    match texts.as_slice() {
        [first, rest @ ..] if *first == b"vfs 1".as_slice() && !rest.is_empty() => body_of(
            alloc, rest,
        ),
        _ => Err(ScriptFault::BadLine { line: 1 }),
    }
}

/// The script of which these bytes are a text.
///
/// The first line is `vfs 1`. The second may be `limits P F M N`: the callers, from 1 to 16, the open descriptors, from
/// 1 to 256, the mounts, from 1 to 16, and the vnodes, from `9 * (F + 6P + 3M)` to 4,096. Without it these are 16, 256,
/// 16 and 4,096. Then come at most 4,096 call lines, each with its caller, from 1 to P, and the words of a call, and at
/// last the line `end`. Words have one space between them, and each value has one spelling, that of `print_script`.
///
/// `BadLine` comes exactly where the bytes are the text of no script. Its line is the first that isn't lawful at its
/// place, counted from 1. A line without its line end isn't lawful, and where the input ends before `end`, the next
/// line is the bad one. The first byte after the line `end` begins a bad line.
pub fn read_script(alloc: Global, bytes: &[u8]) -> Result<Script, ScriptFault>
    // What is read has this text.
    ensures found { IfOk result (λ script. HasText script × IsTextOf script bytes.now) }
    // What has this text is read, unless memory runs out.
    ensures only { (script : Script) → HasText script → IsTextOf script bytes.now → Answers result script }
    // What is no text is told by its bad line.
    ensures bad { (n : ℕ) → result ≡ Err (BadLine n) → IsBadLine bytes.now n }
{
    script_of(alloc, bytes)
}
