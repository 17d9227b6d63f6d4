ghost use Rattle.std.specs.Prelude.{◌≡◌, ◌++◌, map, OnOk};
ghost use Rattle.script_text.specs.Reading.{Gives};
ghost use Rattle.script_text.specs.ReadScript.{is_within, is_lawful, limits_from, limits_in, limits_at};
ghost use Rattle.script_text.specs.Script.{is_default, limits_text};

use crate::cut::parts;
use crate::fault::LineFault;
use crate::number::number_of;
use crate::printing::next_number;
use std::alloc::{AllocError, Global};
use vfs_tree::Limits;

/// Whether the limits are those of a script that names none.
pub fn tests_default(limits: &Limits) -> bool
    ensures { result ≡ is_default limits.now }
{
    limits.callers == 16 && limits.files == 256 && limits.mounts == 16 && limits.vnodes == 4096
}

fn tests_within(n: u32, most: u32) -> bool
    ensures { result ≡ is_within n most }
{
    0 < n && n <= most
}

/// Whether the limits are lawful.
fn tests_lawful(limits: &Limits) -> bool
    ensures { result ≡ is_lawful limits.now }
{
    tests_within(limits.callers, 16)
        && tests_within(limits.files, 256)
        && tests_within(limits.mounts, 16)
        && 9 * (limits.files + 6 * limits.callers + 3 * limits.mounts) <= limits.vnodes
        && limits.vnodes <= 4096
}

/// The limits of the words after the first of a limits line.
fn limits_from(
    callers: &[u8],
    files: &[u8],
    mounts: &[u8],
    vnodes: &[u8],
) -> Result<Limits, LineFault>
    ensures { Gives (λ x. x) result (limits_from callers.now files.now mounts.now vnodes.now) }
{
    let callers = number_of(callers)?;
    let files = number_of(files)?;
    let mounts = number_of(mounts)?;
    let vnodes = number_of(vnodes)?;
    let limits = Limits {
        callers,
        files,
        mounts,
        vnodes,
    };
    if tests_lawful(&limits) {
        Ok(limits)
    } else {
        Err(LineFault::Bad)
    }
}

#[tactic(auto, unfolding(crate::specs::ReadScript::limits_in))]
fn limits_of_words(words: &[&[u8]]) -> Result<Limits, LineFault>
    ensures { Gives (λ x. x) result (limits_in (map (λ w. w.now) words.now)) }
{
    match words {
        [word, callers, files, mounts, vnodes] if *word == b"limits".as_slice() => limits_from(
            callers, files, mounts, vnodes,
        ),
        _ => Err(LineFault::Bad),
    }
}

/// The limits of this line. `Bad` comes exactly where it is the limits line of no lawful limits.
#[tactic(auto, unfolding(crate::specs::ReadScript::limits_at))]
pub fn limits_of(alloc: Global, text: &[u8]) -> Result<Limits, LineFault>
    ensures { Gives (λ x. x) result (limits_at text.now) }
{
    let words = parts(alloc, text, b' ')?;
    limits_of_words(words.as_slice())
}

/// Appends the limits line without its line end. The only fault is want of memory; then a part may have been appended.
#[tactic(auto, unfolding(crate::specs::Script::limits_text))]
pub fn put_limits(out: &mut Vec<u8>, limits: &Limits) -> Result<(), AllocError>
    ensures { OnOk result (out.new.items ≡ out.old.items ++ limits_text limits.now) }
{
    out.extend_from_slice(b"limits")?;
    next_number(out, limits.callers)?;
    next_number(out, limits.files)?;
    next_number(out, limits.mounts)?;
    next_number(out, limits.vnodes)
}
