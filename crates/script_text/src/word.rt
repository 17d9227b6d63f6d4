ghost use Rattle.std.specs.Prelude.{◌≡◌, ◌++◌, ◌<◌, IfOk, OnOk};
ghost use Rattle.script_text.specs.declared.word.Escape.TheVariants.{Outside};
ghost use Rattle.script_text.specs.Reading.{Gives};
ghost use Rattle.script_text.specs.ReadWord.{digit_value, bytes_from, bytes_at};
ghost use Rattle.script_text.specs.Word.{is_plain, hex_digit, byte_text, word_text};

use crate::fault::LineFault;
use std::alloc::{AllocError, Global};
use vfs_tree::Bytes;

/// Whether the byte stands for itself in a word.
pub fn tests_plain(byte: u8) -> bool
    ensures { result ≡ is_plain byte }
{
    byte > 0x20 && byte < 0x7F && byte != b'%'
}

/// The lower-case hexadecimal digit of this value.
fn digit_of(value: u8) -> u8
    requires { value < 16 }
    ensures { result ≡ hex_digit value }
{
    if value < 10 {
        b'0' + value
    } else {
        b'a' + (value - 10)
    }
}

fn put_byte(out: &mut Vec<u8>, byte: u8) -> Result<(), AllocError>
    ensures { OnOk result (out.new.items ≡ out.old.items ++ byte_text byte) }
{
    if tests_plain(byte) {
        out.push(byte)?;
        return Ok(());
    }
    out.extend_from_slice(&[b'%', digit_of(byte / 16), digit_of(byte % 16)])
}

/// Appends the byte word of these bytes.
///
/// A byte from 0x21 to 0x7E other than `%` stands for itself, each other byte is `%` and two lower-case hexadecimal
/// digits, and the empty text is `%` alone. The only fault is want of memory; then a part may have been appended.
#[tactic(auto, unfolding(crate::specs::Word::word_text))]
pub fn put_word(out: &mut Vec<u8>, bytes: &[u8]) -> Result<(), AllocError>
    ensures { OnOk result (out.new.items ≡ out.old.items ++ word_text bytes.now) }
{
    if bytes.is_empty() {
        out.push(b'%')?;
        return Ok(());
    }
    for byte in bytes {
        put_byte(out, *byte)?;
    }
    Ok(())
}

/// How far the escape of a byte has come.
#[derive(Clone, Copy)]
enum Escape {
    /// No escape has begun.
    Outside,
    /// The sign of an escape stands before.
    Sign,
    /// The first digit of an escape stands before.
    Digit(u8),
}

fn value_of(digit: u8) -> u8
    ensures value { result ≡ digit_value digit }
    ensures low { result < 16 }
{
    if digit < 58 {
        digit.saturating_sub(48) % 16
    } else {
        digit.saturating_sub(87) % 16
    }
}

fn unescaped(alloc: Global, word: &[u8]) -> Result<Vec<u8>, AllocError>
    ensures { IfOk result (λ v. v.items ≡ bytes_from Outside word.now) }
{
    let mut bytes = Vec::new(alloc);
    let mut escape = Escape::Outside;
    for c in word {
        match escape {
            Escape::Outside if *c == b'%' => escape = Escape::Sign,
            Escape::Outside => bytes.push(*c)?,
            Escape::Sign => escape = Escape::Digit(*c),
            Escape::Digit(high) => {
                bytes.push(16 * value_of(high) + value_of(*c))?;
                escape = Escape::Outside;
            }
        }
    }
    Ok(bytes)
}

/// The bytes of a word that is spelled right, and some bytes of any other word.
#[tactic(auto, unfolding(crate::specs::ReadWord::bytes_at))]
pub fn bytes_of(alloc: Global, word: &[u8]) -> Result<Bytes, LineFault>
    ensures { Gives (λ x. x) result (bytes_at word.now) }
{
    Ok(Bytes::of(unescaped(alloc, word)?))
}
