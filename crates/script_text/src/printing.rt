ghost use Rattle.std.specs.Prelude.{◌≡◌, [], ◌∷◌, ◌++◌, OnOk, decimal};
ghost use Rattle.std.specs.Fmt.{signed_decimal};
ghost use Rattle.script_text.specs.Word.{word_text};
ghost use Rattle.script_text.specs.Flags.{flags_text, whence_text};
ghost use Rattle.script_text.specs.Line.{call_words, spaced, line_text, call_text};

use crate::flags::{put_flags, text_of_whence};
use crate::keyword::Keyword;
use crate::number::{put_number, put_offset};
use crate::word::put_word;
use call_model::{Call, Flags, Line, Whence};
use std::alloc::AllocError;
use vfs_tree::Bytes;

fn next_bytes(out: &mut Vec<u8>, bytes: &Bytes) -> Result<(), AllocError>
    ensures { OnOk result (out.new.items ≡ out.old.items ++ 32 ∷ word_text bytes.now) }
{
    out.push(b' ')?;
    put_word(out, bytes.as_slice())
}

/// Appends a space and the number. The only fault is want of memory.
pub fn next_number(out: &mut Vec<u8>, number: u32) -> Result<(), AllocError>
    ensures { OnOk result (out.new.items ≡ out.old.items ++ 32 ∷ decimal number) }
{
    out.push(b' ')?;
    put_number(out, u64::from(number))
}

fn next_offset(out: &mut Vec<u8>, offset: i64) -> Result<(), AllocError>
    ensures { OnOk result (out.new.items ≡ out.old.items ++ 32 ∷ signed_decimal offset) }
{
    out.push(b' ')?;
    put_offset(out, offset)
}

fn next_flags(out: &mut Vec<u8>, flags: Flags) -> Result<(), AllocError>
    ensures { OnOk result (out.new.items ≡ out.old.items ++ 32 ∷ flags_text flags) }
{
    out.push(b' ')?;
    put_flags(out, flags)
}

fn next_whence(out: &mut Vec<u8>, whence: Whence) -> Result<(), AllocError>
    ensures { OnOk result (out.new.items ≡ out.old.items ++ 32 ∷ whence_text whence) }
{
    out.push(b' ')?;
    out.extend_from_slice(text_of_whence(whence))
}

/// Appends what the call takes, with a space before each word.
fn put_call_words(out: &mut Vec<u8>, call: &Call) -> Result<(), AllocError>
    ensures { OnOk result (out.new.items ≡ out.old.items ++ spaced (call_words call.now)) }
{
    match call {
        Call::Mkdir { p }
        | Call::Rmdir { p }
        | Call::Stat { p }
        | Call::Lstat { p }
        | Call::Unlink { p }
        | Call::Readlink { p }
        | Call::Undelete { p }
        | Call::Chdir { p }
        | Call::Statfs { p }
        | Call::MountMem { p }
        | Call::Umount { p }
        | Call::UmountForce { p }
        | Call::Revoke { p } => next_bytes(out, p),
        Call::Close { d } | Call::Fstat { d } | Call::Readdir { d } | Call::Fchdir { d } =>
            next_number(out, *d),
        Call::Rename { a, b } | Call::Link { a, b } => put_two(out, a, b),
        Call::Symlink { t, p } | Call::MountNull { t, p } => put_two(out, t, p),
        Call::MountUnion { u, p } => put_two(out, u, p),
        Call::Open { p, f } => {
            next_bytes(out, p)?;
            next_flags(out, *f)
        }
        Call::Read { d, n } | Call::Ftruncate { d, n } => {
            next_number(out, *d)?;
            next_number(out, *n)
        }
        Call::Pread { d, n, o } => {
            next_number(out, *d)?;
            next_number(out, *n)?;
            next_number(out, *o)
        }
        Call::Write { d, w } => {
            next_number(out, *d)?;
            next_bytes(out, w)
        }
        Call::Pwrite { d, o, w } => {
            next_number(out, *d)?;
            next_number(out, *o)?;
            next_bytes(out, w)
        }
        Call::Lseek { d, h, i } => {
            next_number(out, *d)?;
            next_whence(out, *h)?;
            next_offset(out, *i)
        }
        Call::Truncate { p, n } => {
            next_bytes(out, p)?;
            next_number(out, *n)
        }
    }
}

fn put_two(out: &mut Vec<u8>, first: &Bytes, second: &Bytes) -> Result<(), AllocError>
    ensures { OnOk result (out.new.items ≡ out.old.items ++ spaced (word_text first.now ∷ word_text second.now ∷ [])) }
{
    next_bytes(out, first)?;
    next_bytes(out, second)
}

/// Appends the text of this caller's call without a line end: the caller, the call's first word and what the call
/// takes, with one space between each two words. The only fault is want of memory; then a part may have been appended.
pub fn put_call(out: &mut Vec<u8>, caller: u32, call: &Call) -> Result<(), AllocError>
    ensures { OnOk result (out.new.items ≡ out.old.items ++ call_text caller call.now) }
{
    put_number(out, u64::from(caller))?;
    out.push(b' ')?;
    out.extend_from_slice(Keyword::of(call).text())?;
    put_call_words(out, call)?;
    Ok(())
}

/// Appends the text of a line without its line end: that of its caller's call. The only fault is want of memory; then
/// a part may have been appended.
pub fn put_line(out: &mut Vec<u8>, line: &Line) -> Result<(), AllocError>
    ensures { OnOk result (out.new.items ≡ out.old.items ++ line_text line.now) }
{
    put_call(out, line.caller, &line.call)
}
