ghost use Rattle.std.specs.Prelude.{◌≡◌, IfOk};

use call_model::{MountWord, Reply};
use std::alloc::{AllocError, Global};
use vfs_tree::{Bytes, Kind};

/// What a call answers, for its caller and for the history.
#[derive(Debug, Drop)]
pub struct Answer {
    /// The reply for the caller.
    pub reply: Reply,
    /// The same reply for the history.
    pub entered: Reply,
    ghost same: { entered ≡ reply },
}

impl Answer {
    /// That the call was done.
    pub fn done() -> Answer
        ensures { result.reply ≡ Reply.Done }
    {
        Answer {
            reply: Reply::Done,
            entered: Reply::Done,
        }
    }

    /// A kind and a size.
    pub fn stat(kind: Kind, size: u32) -> Answer
        ensures { result.reply ≡ Reply.Stat kind size }
    {
        Answer {
            reply: Reply::Stat { kind, size },
            entered: Reply::Stat { kind, size },
        }
    }

    /// A mount and what it shows.
    pub fn fs(mount: u32, kind: MountWord) -> Answer
        ensures { result.reply ≡ Reply.Fs mount kind }
    {
        Answer {
            reply: Reply::Fs { mount, kind },
            entered: Reply::Fs { mount, kind },
        }
    }

    /// A new offset.
    pub fn offset(at: u64) -> Answer
        ensures { result.reply ≡ Reply.Offset at }
    {
        Answer {
            reply: Reply::Offset { at },
            entered: Reply::Offset { at },
        }
    }

    /// A descriptor.
    pub fn fd(fd: u32) -> Answer
        ensures { result.reply ≡ Reply.Fd fd }
    {
        Answer {
            reply: Reply::Fd { fd },
            entered: Reply::Fd { fd },
        }
    }

    /// How many bytes were written.
    pub fn count(n: u32) -> Answer
        ensures { result.reply ≡ Reply.Count n }
    {
        Answer {
            reply: Reply::Count { n },
            entered: Reply::Count { n },
        }
    }

    /// The path that a link stands for. The only fault is want of memory.
    pub fn target(alloc: Global, text: &[u8]) -> Result<Answer, AllocError>
        ensures { IfOk result (λ answer. answer.reply ≡ Reply.Target text.now) }
    {
        let bytes = Bytes::copy_of(alloc, text)?;
        let entered = Bytes::copy_of(alloc, text)?;
        Ok(Answer {
            reply: Reply::Target { bytes },
            entered: Reply::Target { bytes: entered },
        })
    }
}
