ghost use Rattle.std.specs.Prelude.{◌≡◌};
ghost use Rattle.script_text.specs.Keyword.{path_keyword_text, descriptor_keyword_text, paths_keyword_text, keyword_text, keyword, find_keyword, keyword_at};
ghost use Rattle.script_text.specs.Reading.{Gives};

use crate::fault::LineFault;
use call_model::Call;

/// The first word of a call that takes one path.
#[derive(Clone, Copy)]
pub enum PathKeyword {
    Mkdir,
    Rmdir,
    Stat,
    Lstat,
    Unlink,
    Readlink,
    Undelete,
    Chdir,
    Statfs,
    MountMem,
    Umount,
    UmountForce,
    Revoke,
}

/// The first word of a call that takes a descriptor alone.
#[derive(Clone, Copy)]
pub enum DescriptorKeyword {
    Close,
    Fstat,
    Readdir,
    Fchdir,
}

/// The first word of a call that takes two paths, or a target and a path.
#[derive(Clone, Copy)]
pub enum PathsKeyword {
    Rename,
    Link,
    Symlink,
    MountNull,
    MountUnion,
}

/// The first word of a call, by what the call takes.
#[derive(Clone, Copy)]
pub enum Keyword {
    Path(PathKeyword),
    Descriptor(DescriptorKeyword),
    Paths(PathsKeyword),
    Open,
    Read,
    Pread,
    Write,
    Pwrite,
    Lseek,
    Truncate,
    Ftruncate,
}

impl PathKeyword {
    fn text(self) -> &'static [u8]
        ensures { result.now ≡ path_keyword_text self }
    {
        match self {
            PathKeyword::Mkdir => b"mkdir",
            PathKeyword::Rmdir => b"rmdir",
            PathKeyword::Stat => b"stat",
            PathKeyword::Lstat => b"lstat",
            PathKeyword::Unlink => b"unlink",
            PathKeyword::Readlink => b"readlink",
            PathKeyword::Undelete => b"undelete",
            PathKeyword::Chdir => b"chdir",
            PathKeyword::Statfs => b"statfs",
            PathKeyword::MountMem => b"mountmem",
            PathKeyword::Umount => b"umount",
            PathKeyword::UmountForce => b"umountforce",
            PathKeyword::Revoke => b"revoke",
        }
    }
}

impl DescriptorKeyword {
    fn text(self) -> &'static [u8]
        ensures { result.now ≡ descriptor_keyword_text self }
    {
        match self {
            DescriptorKeyword::Close => b"close",
            DescriptorKeyword::Fstat => b"fstat",
            DescriptorKeyword::Readdir => b"readdir",
            DescriptorKeyword::Fchdir => b"fchdir",
        }
    }
}

impl PathsKeyword {
    fn text(self) -> &'static [u8]
        ensures { result.now ≡ paths_keyword_text self }
    {
        match self {
            PathsKeyword::Rename => b"rename",
            PathsKeyword::Link => b"link",
            PathsKeyword::Symlink => b"symlink",
            PathsKeyword::MountNull => b"mountnull",
            PathsKeyword::MountUnion => b"mountunion",
        }
    }
}

impl Keyword {
    /// The word itself.
    pub fn text(self) -> &'static [u8]
        ensures { result.now ≡ keyword_text self }
    {
        match self {
            Keyword::Path(keyword) => keyword.text(),
            Keyword::Descriptor(keyword) => keyword.text(),
            Keyword::Paths(keyword) => keyword.text(),
            Keyword::Open => b"open",
            Keyword::Read => b"read",
            Keyword::Pread => b"pread",
            Keyword::Write => b"write",
            Keyword::Pwrite => b"pwrite",
            Keyword::Lseek => b"lseek",
            Keyword::Truncate => b"truncate",
            Keyword::Ftruncate => b"ftruncate",
        }
    }

    /// The first word of a call.
    pub fn of(call: &Call) -> Keyword
        ensures { result ≡ keyword call.now }
    {
        match call {
            Call::Mkdir { .. } => Keyword::Path(PathKeyword::Mkdir),
            Call::Rmdir { .. } => Keyword::Path(PathKeyword::Rmdir),
            Call::Open { .. } => Keyword::Open,
            Call::Close { .. } => Keyword::Descriptor(DescriptorKeyword::Close),
            Call::Read { .. } => Keyword::Read,
            Call::Pread { .. } => Keyword::Pread,
            Call::Write { .. } => Keyword::Write,
            Call::Pwrite { .. } => Keyword::Pwrite,
            Call::Lseek { .. } => Keyword::Lseek,
            Call::Truncate { .. } => Keyword::Truncate,
            Call::Ftruncate { .. } => Keyword::Ftruncate,
            Call::Stat { .. } => Keyword::Path(PathKeyword::Stat),
            Call::Lstat { .. } => Keyword::Path(PathKeyword::Lstat),
            Call::Fstat { .. } => Keyword::Descriptor(DescriptorKeyword::Fstat),
            Call::Readdir { .. } => Keyword::Descriptor(DescriptorKeyword::Readdir),
            Call::Unlink { .. } => Keyword::Path(PathKeyword::Unlink),
            Call::Rename { .. } => Keyword::Paths(PathsKeyword::Rename),
            Call::Link { .. } => Keyword::Paths(PathsKeyword::Link),
            Call::Symlink { .. } => Keyword::Paths(PathsKeyword::Symlink),
            Call::Readlink { .. } => Keyword::Path(PathKeyword::Readlink),
            Call::Undelete { .. } => Keyword::Path(PathKeyword::Undelete),
            Call::Chdir { .. } => Keyword::Path(PathKeyword::Chdir),
            Call::Fchdir { .. } => Keyword::Descriptor(DescriptorKeyword::Fchdir),
            Call::Statfs { .. } => Keyword::Path(PathKeyword::Statfs),
            Call::MountMem { .. } => Keyword::Path(PathKeyword::MountMem),
            Call::MountNull { .. } => Keyword::Paths(PathsKeyword::MountNull),
            Call::MountUnion { .. } => Keyword::Paths(PathsKeyword::MountUnion),
            Call::Umount { .. } => Keyword::Path(PathKeyword::Umount),
            Call::UmountForce { .. } => Keyword::Path(PathKeyword::UmountForce),
            Call::Revoke { .. } => Keyword::Path(PathKeyword::Revoke),
        }
    }
}

/// All keywords.
const KEYWORDS: [Keyword; 30] = [
    Keyword::Path(PathKeyword::Mkdir),
    Keyword::Path(PathKeyword::Rmdir),
    Keyword::Open,
    Keyword::Descriptor(DescriptorKeyword::Close),
    Keyword::Read,
    Keyword::Pread,
    Keyword::Write,
    Keyword::Pwrite,
    Keyword::Lseek,
    Keyword::Truncate,
    Keyword::Ftruncate,
    Keyword::Path(PathKeyword::Stat),
    Keyword::Path(PathKeyword::Lstat),
    Keyword::Descriptor(DescriptorKeyword::Fstat),
    Keyword::Descriptor(DescriptorKeyword::Readdir),
    Keyword::Path(PathKeyword::Unlink),
    Keyword::Paths(PathsKeyword::Rename),
    Keyword::Paths(PathsKeyword::Link),
    Keyword::Paths(PathsKeyword::Symlink),
    Keyword::Path(PathKeyword::Readlink),
    Keyword::Path(PathKeyword::Undelete),
    Keyword::Path(PathKeyword::Chdir),
    Keyword::Descriptor(DescriptorKeyword::Fchdir),
    Keyword::Path(PathKeyword::Statfs),
    Keyword::Path(PathKeyword::MountMem),
    Keyword::Paths(PathsKeyword::MountNull),
    Keyword::Paths(PathsKeyword::MountUnion),
    Keyword::Path(PathKeyword::Umount),
    Keyword::Path(PathKeyword::UmountForce),
    Keyword::Path(PathKeyword::Revoke),
];

fn find_keyword(word: &[u8], keywords: &[Keyword]) -> Option<Keyword>
    ensures { result ≡ find_keyword word.now keywords.now }
{
    for keyword in keywords {
        if keyword.text() == word {
            return Some(*keyword);
        }
    }
    None
}

/// The keyword that is this word. `Bad` comes exactly where no call has this first word.
#[tactic(auto, unfolding(crate::specs::Keyword::keyword_at))]
pub fn keyword_of(word: &[u8]) -> Result<Keyword, LineFault>
    ensures { Gives (λ x. x) result (keyword_at word.now) }
{
    match find_keyword(word, &KEYWORDS) {
        Some(keyword) => Ok(keyword),
        None => Err(LineFault::Bad),
    }
}
