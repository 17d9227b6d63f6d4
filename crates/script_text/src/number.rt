ghost use Rattle.std.specs.Prelude.{◌≡◌, ℕ, ◌<◌, ◌^◌, ◌++◌, OnOk, IfSome, IfNone, decimal};
ghost use Rattle.std.specs.Fmt.{signed_decimal};
ghost use Rattle.script_text.specs.Reading.{Gives};
ghost use Rattle.script_text.specs.ReadWord.{number_at, offset_at};

use crate::fault::LineFault;
use itoa::Buffer;
use std::alloc::AllocError;

/// Appends the number in decimal, without leading zeros. The only fault is want of memory; then nothing was appended.
pub fn put_number(out: &mut Vec<u8>, number: u64) -> Result<(), AllocError>
    ensures { OnOk result (out.new.items ≡ out.old.items ++ decimal number) }
{
    let mut buffer = Buffer::new();
    out.extend_from_slice(buffer.format(number).as_bytes())
}

/// Appends the offset in decimal, with `-` before it where it is below 0. The only fault is want of memory.
pub fn put_offset(out: &mut Vec<u8>, offset: i64) -> Result<(), AllocError>
    ensures { OnOk result (out.new.items ≡ out.old.items ++ signed_decimal offset) }
{
    let mut buffer = Buffer::new();
    out.extend_from_slice(buffer.format(offset).as_bytes())
}

fn number_of_text(text: &str) -> Option<u32>
    ensures found { IfSome result (λ n. decimal n ≡ text.now) }
    ensures none { IfNone result ((n : ℕ) → n < 2 ^ 32 → decimal n ≡ text.now → ⊥) }
{
    match text.parse::<u32>() {
        Ok(number) => {
            let mut buffer = Buffer::new();
            if buffer.format(number) == text {
                Some(number)
            } else {
                None
            }
        }
        Err(_) => None,
    }
}

fn number_in(word: &[u8]) -> Option<u32>
    ensures small { IfSome result (λ n. n < 2 ^ 32) }
    ensures found { IfSome result (λ n. decimal n ≡ word.now) }
    ensures none { IfNone result ((n : ℕ) → n < 2 ^ 32 → decimal n ≡ word.now → ⊥) }
{
    match str::from_utf8(word) {
        Ok(text) => number_of_text(text),
        Err(_) => None,
    }
}

/// The number that the word spells, without a sign or leading zeros.
pub fn number_of(word: &[u8]) -> Result<u32, LineFault>
    ensures { Gives (λ x. x) result (number_at word.now) }
{
    match number_in(word) {
        Some(number) => Ok(number),
        None => Err(LineFault::Bad),
    }
}

/// The offset that the word spells: a number, or `-` and a number. `-0` is read here, and is no spelling of 0.
#[tactic(auto, unfolding(crate::specs::ReadWord::offset_at))]
pub fn offset_of(word: &[u8]) -> Result<i64, LineFault>
    ensures { Gives (λ x. x) result (offset_at word.now) }
{
    match word {
        [b'-', digits @ ..] => Ok(-i64::from(number_of(digits)?)),
        _ => Ok(i64::from(number_of(word)?)),
    }
}
