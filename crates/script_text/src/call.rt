ghost use Rattle.std.specs.Prelude.{◌≡◌, map};
ghost use Rattle.call_model.specs.declared.call.Call.TheVariants as call;
ghost use Rattle.script_text.specs.Reading.{Gives};
ghost use Rattle.script_text.specs.ReadWord.{bytes_at, number_at, offset_at, flags_at, whence_at};
ghost use Rattle.script_text.specs.ReadCall.{one, two, three, path_call, descriptor_call, paths_call, call_at};

use crate::fault::LineFault;
use crate::flags::{flags_of, whence_of};
use crate::keyword::{DescriptorKeyword, Keyword, PathKeyword, PathsKeyword};
use crate::number::{number_of, offset_of};
use crate::word::bytes_of;
use call_model::Call;
use std::alloc::Global;
use vfs_tree::Bytes;

/// The call of one path.
fn path_call(keyword: PathKeyword, p: Bytes) -> Call
    ensures { result ≡ path_call keyword p }
{
    match keyword {
        PathKeyword::Mkdir => Call::Mkdir { p },
        PathKeyword::Rmdir => Call::Rmdir { p },
        PathKeyword::Stat => Call::Stat { p },
        PathKeyword::Lstat => Call::Lstat { p },
        PathKeyword::Unlink => Call::Unlink { p },
        PathKeyword::Readlink => Call::Readlink { p },
        PathKeyword::Undelete => Call::Undelete { p },
        PathKeyword::Chdir => Call::Chdir { p },
        PathKeyword::Statfs => Call::Statfs { p },
        PathKeyword::MountMem => Call::MountMem { p },
        PathKeyword::Umount => Call::Umount { p },
        PathKeyword::UmountForce => Call::UmountForce { p },
        PathKeyword::Revoke => Call::Revoke { p },
    }
}

/// The call of one descriptor.
fn descriptor_call(keyword: DescriptorKeyword, d: u32) -> Call
    ensures { result ≡ descriptor_call keyword d }
{
    match keyword {
        DescriptorKeyword::Close => Call::Close { d },
        DescriptorKeyword::Fstat => Call::Fstat { d },
        DescriptorKeyword::Readdir => Call::Readdir { d },
        DescriptorKeyword::Fchdir => Call::Fchdir { d },
    }
}

/// The call of two paths, or of a target and a path.
fn paths_call(keyword: PathsKeyword, first: Bytes, second: Bytes) -> Call
    ensures { result ≡ paths_call keyword first second }
{
    match keyword {
        PathsKeyword::Rename => Call::Rename {
            a: first,
            b: second,
        },
        PathsKeyword::Link => Call::Link {
            a: first,
            b: second,
        },
        PathsKeyword::Symlink => Call::Symlink {
            t: first,
            p: second,
        },
        PathsKeyword::MountNull => Call::MountNull {
            t: first,
            p: second,
        },
        PathsKeyword::MountUnion => Call::MountUnion {
            u: first,
            p: second,
        },
    }
}

fn one_path(alloc: Global, keyword: PathKeyword, words: &[&[u8]]) -> Result<Call, LineFault>
    ensures { Gives (λ x. x) result (one bytes_at (path_call keyword) (map (λ w. w.now) words.now)) }
{
    match words {
        [p] => Ok(path_call(keyword, bytes_of(alloc, p)?)),
        _ => Err(LineFault::Bad),
    }
}

fn one_descriptor(keyword: DescriptorKeyword, words: &[&[u8]]) -> Result<Call, LineFault>
    ensures { Gives (λ x. x) result (one number_at (descriptor_call keyword) (map (λ w. w.now) words.now)) }
{
    match words {
        [d] => Ok(descriptor_call(keyword, number_of(d)?)),
        _ => Err(LineFault::Bad),
    }
}

fn two_paths(alloc: Global, keyword: PathsKeyword, words: &[&[u8]]) -> Result<Call, LineFault>
    ensures { Gives (λ x. x) result (two bytes_at bytes_at (paths_call keyword) (map (λ w. w.now) words.now)) }
{
    match words {
        [first, second] => {
            let first = bytes_of(alloc, first)?;
            let second = bytes_of(alloc, second)?;
            Ok(paths_call(keyword, first, second))
        }
        _ => Err(LineFault::Bad),
    }
}

fn open_of(alloc: Global, words: &[&[u8]]) -> Result<Call, LineFault>
    ensures { Gives (λ x. x) result (two bytes_at flags_at (λ p f. call.Open p f) (map (λ w. w.now) words.now)) }
{
    match words {
        [p, f] => {
            let p = bytes_of(alloc, p)?;
            let f = flags_of(f)?;
            Ok(Call::Open { p, f })
        }
        _ => Err(LineFault::Bad),
    }
}

fn read_of(words: &[&[u8]]) -> Result<Call, LineFault>
    ensures { Gives (λ x. x) result (two number_at number_at (λ d n. call.Read d n) (map (λ w. w.now) words.now)) }
{
    match words {
        [d, n] => {
            let d = number_of(d)?;
            let n = number_of(n)?;
            Ok(Call::Read { d, n })
        }
        _ => Err(LineFault::Bad),
    }
}

fn pread_of(words: &[&[u8]]) -> Result<Call, LineFault>
    ensures { Gives (λ x. x) result (three number_at number_at number_at (λ d n o. call.Pread d n o) (map (λ w. w.now) words.now)) }
{
    match words {
        [d, n, o] => {
            let d = number_of(d)?;
            let n = number_of(n)?;
            let o = number_of(o)?;
            Ok(Call::Pread { d, n, o })
        }
        _ => Err(LineFault::Bad),
    }
}

fn write_of(alloc: Global, words: &[&[u8]]) -> Result<Call, LineFault>
    ensures { Gives (λ x. x) result (two number_at bytes_at (λ d w. call.Write d w) (map (λ w. w.now) words.now)) }
{
    match words {
        [d, w] => {
            let d = number_of(d)?;
            let w = bytes_of(alloc, w)?;
            Ok(Call::Write { d, w })
        }
        _ => Err(LineFault::Bad),
    }
}

fn pwrite_of(alloc: Global, words: &[&[u8]]) -> Result<Call, LineFault>
    ensures { Gives (λ x. x) result (three number_at number_at bytes_at (λ d o w. call.Pwrite d o w) (map (λ w. w.now) words.now)) }
{
    match words {
        [d, o, w] => {
            let d = number_of(d)?;
            let o = number_of(o)?;
            let w = bytes_of(alloc, w)?;
            Ok(Call::Pwrite { d, o, w })
        }
        _ => Err(LineFault::Bad),
    }
}

fn lseek_of(words: &[&[u8]]) -> Result<Call, LineFault>
    ensures { Gives (λ x. x) result (three number_at whence_at offset_at (λ d h i. call.Lseek d h i) (map (λ w. w.now) words.now)) }
{
    match words {
        [d, h, i] => {
            let d = number_of(d)?;
            let h = whence_of(h);
            let i = offset_of(i)?;
            Ok(Call::Lseek { d, h, i })
        }
        _ => Err(LineFault::Bad),
    }
}

fn truncate_of(alloc: Global, words: &[&[u8]]) -> Result<Call, LineFault>
    ensures { Gives (λ x. x) result (two bytes_at number_at (λ p n. call.Truncate p n) (map (λ w. w.now) words.now)) }
{
    match words {
        [p, n] => {
            let p = bytes_of(alloc, p)?;
            let n = number_of(n)?;
            Ok(Call::Truncate { p, n })
        }
        _ => Err(LineFault::Bad),
    }
}

fn ftruncate_of(words: &[&[u8]]) -> Result<Call, LineFault>
    ensures { Gives (λ x. x) result (two number_at number_at (λ d n. call.Ftruncate d n) (map (λ w. w.now) words.now)) }
{
    match words {
        [d, n] => {
            let d = number_of(d)?;
            let n = number_of(n)?;
            Ok(Call::Ftruncate { d, n })
        }
        _ => Err(LineFault::Bad),
    }
}

/// The call of this first word that takes these words, where they are spelled right.
pub fn call_of(alloc: Global, keyword: Keyword, words: &[&[u8]]) -> Result<Call, LineFault>
    ensures { Gives (λ x. x) result (call_at keyword (map (λ w. w.now) words.now)) }
{
    match keyword {
        Keyword::Path(keyword) => one_path(alloc, keyword, words),
        Keyword::Descriptor(keyword) => one_descriptor(keyword, words),
        Keyword::Paths(keyword) => two_paths(alloc, keyword, words),
        Keyword::Open => open_of(alloc, words),
        Keyword::Read => read_of(words),
        Keyword::Pread => pread_of(words),
        Keyword::Write => write_of(alloc, words),
        Keyword::Pwrite => pwrite_of(alloc, words),
        Keyword::Lseek => lseek_of(words),
        Keyword::Truncate => truncate_of(alloc, words),
        Keyword::Ftruncate => ftruncate_of(words),
    }
}
