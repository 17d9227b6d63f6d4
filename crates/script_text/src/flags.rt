ghost use Rattle.std.specs.Prelude.{◌≡◌, ◌++◌, OnOk};
ghost use Rattle.script_text.specs.Flags.{access_letter, letter_if, flags_text, whence_text};
ghost use Rattle.script_text.specs.Reading.{Gives};
ghost use Rattle.script_text.specs.ReadWord.{access_of, has_letter, flags_at, whence_of};

use crate::fault::LineFault;
use call_model::{Access, Flags, Whence};
use std::alloc::AllocError;

fn letter_of(access: Access) -> u8
    ensures { result ≡ access_letter access }
{
    match access {
        Access::Read => b'r',
        Access::Write => b'w',
        Access::Both => b'b',
    }
}

fn put_letter_if(out: &mut Vec<u8>, set: bool, letter: u8) -> Result<(), AllocError>
    ensures { OnOk result (out.new.items ≡ out.old.items ++ letter_if set letter) }
{
    if set {
        out.push(letter)?;
    }
    Ok(())
}

/// Appends the flags word: `r`, `w` or `b`, and then those of `c`, `x`, `t`, `a` and `d` that are set, in this order.
/// The only fault is want of memory.
#[tactic(auto, unfolding(crate::specs::Flags::flags_text))]
pub fn put_flags(out: &mut Vec<u8>, flags: Flags) -> Result<(), AllocError>
    ensures { OnOk result (out.new.items ≡ out.old.items ++ flags_text flags) }
{
    out.push(letter_of(flags.access))?;
    put_letter_if(out, flags.make, b'c')?;
    put_letter_if(out, flags.fresh, b'x')?;
    put_letter_if(out, flags.cut, b't')?;
    put_letter_if(out, flags.append, b'a')?;
    put_letter_if(out, flags.dir, b'd')
}

/// The word of the place from which an offset counts.
pub fn text_of_whence(whence: Whence) -> &'static [u8]
    ensures { result.now ≡ whence_text whence }
{
    match whence {
        Whence::Set => b"set",
        Whence::Cur => b"cur",
        Whence::End => b"end",
    }
}

fn access_of(letter: u8) -> Access
    ensures { result ≡ access_of letter }
{
    if letter == b'r' {
        return Access::Read;
    }
    if letter == b'w' {
        return Access::Write;
    }
    Access::Both
}

fn has_letter(letters: &[u8], letter: u8) -> bool
    ensures { result ≡ has_letter letter letters.now }
{
    letters.contains(&letter)
}

/// The flags of a word that is spelled right, and some flags of any other word that isn't empty.
#[tactic(auto, unfolding(crate::specs::ReadWord::flags_at))]
pub fn flags_of(word: &[u8]) -> Result<Flags, LineFault>
    ensures { Gives (λ x. x) result (flags_at word.now) }
{
    match word {
        [access, letters @ ..] => Ok(Flags {
            access: access_of(*access),
            make: has_letter(letters, b'c'),
            fresh: has_letter(letters, b'x'),
            cut: has_letter(letters, b't'),
            append: has_letter(letters, b'a'),
            dir: has_letter(letters, b'd'),
        }),
        [] => Err(LineFault::Bad),
    }
}

/// The place that a word names from which an offset counts, and some place for any word that is none.
pub fn whence_of(word: &[u8]) -> Whence
    ensures { result ≡ whence_of word.now }
{
    if word == b"set".as_slice() {
        return Whence::Set;
    }
    if word == b"cur".as_slice() {
        return Whence::Cur;
    }
    Whence::End
}
