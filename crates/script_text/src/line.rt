ghost use Rattle.std.specs.Prelude.{◌≡◌, map, IfOk};
ghost use Rattle.std.specs.Str.{bytes_eq};
ghost use Rattle.script_text.specs.Line.{line_text};
ghost use Rattle.script_text.specs.Reading.{Gives};
ghost use Rattle.script_text.specs.ReadCall.{line_from, words_at, is_caller, line_at};

use crate::call::call_of;
use crate::cut::parts;
use crate::fault::LineFault;
use crate::keyword::keyword_of;
use crate::number::number_of;
use crate::printing::put_line;
use call_model::Line;
use std::alloc::{AllocError, Global};

/// The line of the words of its caller, its first word and what its call takes.
fn line_from(alloc: Global, caller: &[u8], word: &[u8], words: &[&[u8]]) -> Result<Line, LineFault>
    ensures { Gives (λ x. x) result (line_from caller.now word.now (map (λ w. w.now) words.now)) }
{
    let caller = number_of(caller)?;
    let keyword = keyword_of(word)?;
    let call = call_of(alloc, keyword, words)?;
    Ok(Line { caller, call })
}

#[tactic(auto, unfolding(crate::specs::ReadCall::words_at))]
fn line_of_words(alloc: Global, words: &[&[u8]]) -> Result<Line, LineFault>
    ensures { Gives (λ x. x) result (words_at (map (λ w. w.now) words.now)) }
{
    match words {
        [caller, word, words @ ..] => line_from(alloc, caller, word, words),
        _ => Err(LineFault::Bad),
    }
}

/// Whether the line is spelled by the text. The line is printed to the scratch, which holds anything before and after.
fn is_spelled(scratch: &mut Vec<u8>, line: &Line, text: &[u8]) -> Result<bool, AllocError>
    ensures { IfOk result (λ b. b ≡ bytes_eq (line_text line.now) text.now) }
{
    scratch.clear();
    put_line(scratch, line)?;
    Ok(scratch.as_slice() == text)
}

fn tests_caller(callers: u32, caller: u32) -> bool
    ensures { result ≡ is_caller callers caller }
{
    0 < caller && caller <= callers
}

/// The line of this text, in a script of so many callers. `Bad` comes exactly where the text is no such line's. A
/// line is read in good faith, and printed to the scratch: what prints otherwise is not its text.
#[tactic(auto, unfolding(crate::specs::ReadCall::line_at))]
pub fn line_of(
    alloc: Global,
    scratch: &mut Vec<u8>,
    callers: u32,
    text: &[u8],
) -> Result<Line, LineFault>
    ensures { Gives (λ x. x) result (line_at callers text.now) }
{
    let words = parts(alloc, text, b' ')?;
    let line = line_of_words(alloc, words.as_slice())?;
    if is_spelled(scratch, &line, text)? && tests_caller(callers, line.caller) {
        Ok(line)
    } else {
        Err(LineFault::Bad)
    }
}
