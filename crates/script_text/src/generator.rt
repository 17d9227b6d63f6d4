ghost use Rattle.std.specs.Prelude.{◌≡◌, ◌+◌, ◌%◌, ◌<◌, ◌≤◌, IfOk};
ghost use Rattle.script_text.specs.Generator.{directory, file_path, first_path, second_path, chosen_descriptor, chosen_number, chosen_bytes, setup_call, low_row, high_row, last_row, chosen_call, gen_line, gen_lines};
ghost use Rattle.turn_order.specs.Scattering.{mix};
ghost use Rattle.call_model.specs.declared.call.Call.TheVariants as call;
ghost use Rattle.script_text.specs.Script.{default_limits, HasText};

use crate::script::{Lines, Script};
use call_model::{Access, Call, Flags, Line, Whence};
use std::alloc::{AllocError, Global};
use turn_order::mix;
use vfs_tree::{Bytes, Limits};

/// For reading and writing, and made where it is missing: the word `bc`.
const FOR_BOTH: Flags = Flags {
    access: Access::Both,
    make: true,
    fresh: false,
    cut: false,
    append: false,
    dir: false,
};

/// For reading: the word `r`.
const FOR_READING: Flags = Flags {
    access: Access::Read,
    make: false,
    fresh: false,
    cut: false,
    append: false,
    dir: false,
};

fn directory(v: u64) -> &'static [u8]
    ensures { result.now ≡ directory v }
{
    match v {
        0 => b"/base",
        1 => b"/view",
        2 => b"/up",
        _ => b"/base/d0",
    }
}

fn file_path(alloc: Global, v: u64, w: u64) -> Result<Bytes, AllocError>
    requires { w < 8 }
    ensures { IfOk result (λ path. path ≡ file_path v w) }
{
    let mut path = Vec::from_slice(alloc, directory(v))?;
    path.extend_from_slice(b"/f")?;
    path.push(b'0' + w as u8)?;
    Ok(Bytes::of(path))
}

#[tactic(auto, unfolding(crate::specs::Generator::first_path))]
fn first_path(alloc: Global, r: u64) -> Result<Bytes, AllocError>
    ensures { IfOk result (λ path. path ≡ first_path r) }
{
    file_path(alloc, (r >> 8) % 4, (r >> 16) % 8)
}

#[tactic(auto, unfolding(crate::specs::Generator::second_path))]
fn second_path(alloc: Global, r: u64) -> Result<Bytes, AllocError>
    ensures { IfOk result (λ path. path ≡ second_path r) }
{
    file_path(alloc, (r >> 24) % 4, (r >> 32) % 8)
}

fn chosen_descriptor(r: u64) -> u32
    ensures { result ≡ chosen_descriptor r }
{
    ((r >> 40) % 4) as u32
}

fn chosen_number(r: u64) -> u32
    ensures value { result ≡ chosen_number r }
    ensures low { result < 256 }
{
    ((r >> 48) % 256) as u32
}

#[tactic(auto, unfolding(crate::specs::Generator::chosen_bytes))]
fn chosen_bytes(alloc: Global, r: u64) -> Result<Bytes, AllocError>
    ensures { IfOk result (λ bytes. bytes ≡ chosen_bytes r) }
{
    let count = chosen_number(r) as usize % 8 + 1;
    let letters = b"abcdefgh".as_slice();
    Bytes::copy_of(alloc, &letters[..count])
}

fn mkdir(alloc: Global, path: &[u8]) -> Result<Call, AllocError>
    ensures { IfOk result (λ c. c ≡ call.Mkdir path.now) }
{
    Ok(Call::Mkdir {
        p: Bytes::copy_of(alloc, path)?,
    })
}

/// The first eight calls.
fn setup_call(alloc: Global, j: u32) -> Result<Call, AllocError>
    ensures { IfOk result (λ c. c ≡ setup_call j) }
{
    match j {
        0 => mkdir(alloc, b"/base"),
        1 => mkdir(alloc, b"/up"),
        2 => mkdir(alloc, b"/view"),
        3 => mkdir(alloc, b"/base/d0"),
        4 => Ok(Call::MountMem {
            p: Bytes::copy_of(alloc, b"/up")?,
        }),
        5 => {
            let u = Bytes::copy_of(alloc, b"/up")?;
            let p = Bytes::copy_of(alloc, b"/base")?;
            Ok(Call::MountUnion { u, p })
        }
        6 => {
            let t = Bytes::copy_of(alloc, b"/base")?;
            let p = Bytes::copy_of(alloc, b"/view")?;
            Ok(Call::MountNull { t, p })
        }
        _ => {
            let p = Bytes::copy_of(alloc, b"/base/f0")?;
            Ok(Call::Open { p, f: FOR_BOTH })
        }
    }
}

/// The rows 0 to 7 of the table of calls.
fn low_row(alloc: Global, row: u64, r: u64) -> Result<Call, AllocError>
    ensures { IfOk result (λ c. c ≡ low_row row r) }
{
    let d = chosen_descriptor(r);
    let n = chosen_number(r);
    match row {
        0 => Ok(Call::Mkdir {
            p: first_path(alloc, r)?,
        }),
        1 => Ok(Call::Rmdir {
            p: first_path(alloc, r)?,
        }),
        2 => Ok(Call::Open {
            p: first_path(alloc, r)?,
            f: FOR_BOTH,
        }),
        3 => Ok(Call::Open {
            p: first_path(alloc, r)?,
            f: FOR_READING,
        }),
        4 => Ok(Call::Close { d }),
        5 => Ok(Call::Read { d, n }),
        6 => Ok(Call::Write {
            d,
            w: chosen_bytes(alloc, r)?,
        }),
        _ => Ok(Call::Lseek {
            d,
            h: Whence::Set,
            i: i64::from(n),
        }),
    }
}

/// The row 15 of the table of calls.
fn last_row(alloc: Global, r: u64) -> Result<Call, AllocError>
    ensures { IfOk result (λ c. c ≡ last_row r) }
{
    let n = chosen_number(r);
    if n == 0 {
        return Ok(Call::UmountForce {
            p: Bytes::copy_of(alloc, b"/view")?,
        });
    }
    if n % 2 == 1 {
        return Ok(Call::Revoke {
            p: first_path(alloc, r)?,
        });
    }
    Ok(Call::Lstat {
        p: second_path(alloc, r)?,
    })
}

/// The rows 8 to 15 of the table of calls.
fn high_row(alloc: Global, row: u64, r: u64) -> Result<Call, AllocError>
    ensures { IfOk result (λ c. c ≡ high_row row r) }
{
    match row {
        8 => Ok(Call::Truncate {
            p: first_path(alloc, r)?,
            n: chosen_number(r),
        }),
        9 => Ok(Call::Stat {
            p: first_path(alloc, r)?,
        }),
        10 => Ok(Call::Unlink {
            p: first_path(alloc, r)?,
        }),
        11 => {
            let a = first_path(alloc, r)?;
            let b = second_path(alloc, r)?;
            Ok(Call::Rename { a, b })
        }
        12 => {
            let a = first_path(alloc, r)?;
            let b = second_path(alloc, r)?;
            Ok(Call::Link { a, b })
        }
        13 => Ok(Call::Readdir {
            d: chosen_descriptor(r),
        }),
        14 => Ok(Call::Undelete {
            p: first_path(alloc, r)?,
        }),
        _ => last_row(alloc, r),
    }
}

/// The call that a scattered word chooses.
fn chosen_call(alloc: Global, r: u64) -> Result<Call, AllocError>
    ensures { IfOk result (λ c. c ≡ chosen_call r) }
{
    let row = r % 16;
    if row < 8 {
        low_row(alloc, row, r)
    } else {
        high_row(alloc, row, r)
    }
}

/// Line `j` of the script of the seed, counted from 0.
#[tactic(auto, unfolding(crate::specs::Generator::gen_line))]
fn gen_line(alloc: Global, seed: u64, j: u32) -> Result<Line, AllocError>
    ensures { IfOk result (λ l. l ≡ gen_line seed j) }
{
    if j < 8 {
        let call = setup_call(alloc, j)?;
        return Ok(Line { caller: 1, call });
    }
    let call = chosen_call(alloc, mix(seed, u64::from(j)))?;
    Ok(Line {
        caller: 1 + j % 4,
        call,
    })
}

/// The script that the generator makes of the seed, with the default limits and so many calls.
///
/// Its first eight calls are of caller 1: they make directories, mount a memory file system, a union and a null layer
/// over them, and open a file. Call `j`, counted from 0, is later one of caller `1 + j % 4`; the word `mix(seed, j)`
/// chooses its row in a table of sixteen calls, and its paths, descriptor and number.
pub fn gen_script(alloc: Global, seed: u64, calls: u32) -> Result<Script, AllocError>
    requires setup { 8 ≤ calls }
    requires few { calls ≤ 4096 }
    ensures lines { IfOk result (λ script. script.lines ≡ gen_lines seed calls) }
    ensures limits { IfOk result (λ script. script.limits ≡ default_limits) }
    ensures text { IfOk result (λ script. HasText script) }
{
    let mut lines = Vec::new(alloc);
    for j in 0..calls {
        lines.push(gen_line(alloc, seed, j)?)?;
    }
    Ok(Script {
        limits: Limits::DEFAULT,
        lines: Lines::of(lines),
    })
}
