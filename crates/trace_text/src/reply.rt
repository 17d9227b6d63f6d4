ghost use Rattle.std.specs.Prelude.{◌≡◌, ◌++◌, OnOk};
ghost use Rattle.trace_text.specs.Reply.{kind_text, mount_word_text, names_text, reply_text};

use call_model::{MountWord, Reply};
use script_text::{put_number, put_word};
use std::alloc::AllocError;
use vfs_tree::{Kind, Name, errno_text};

fn text_of_kind(kind: Kind) -> &'static [u8]
    ensures { result.now ≡ kind_text kind }
{
    match kind {
        Kind::Dir => b"dir",
        Kind::File => b"file",
        Kind::Link => b"link",
    }
}

fn text_of_mount(mount: MountWord) -> &'static [u8]
    ensures { result.now ≡ mount_word_text mount }
{
    match mount {
        MountWord::Mem => b"mem",
        MountWord::Null => b"null",
        MountWord::Union => b"union",
    }
}

fn put_names(out: &mut Vec<u8>, names: &[Name]) -> Result<(), AllocError>
    ensures { OnOk result (out.new.items ≡ out.old.items ++ names_text names.now) }
{
    for name in names {
        out.push(b' ')?;
        put_word(out, name.as_slice())?;
    }
    Ok(())
}

/// Appends the text of a reply. The only fault is want of memory.
pub fn put_reply(out: &mut Vec<u8>, reply: &Reply) -> Result<(), AllocError>
    ensures { OnOk result (out.new.items ≡ out.old.items ++ reply_text reply.now) }
{
    match reply {
        Reply::Done => out.extend_from_slice(b"ok"),
        Reply::Fd { fd } => {
            out.extend_from_slice(b"fd ")?;
            put_number(out, u64::from(*fd))
        }
        Reply::Count { n } => {
            out.extend_from_slice(b"count ")?;
            put_number(out, u64::from(*n))
        }
        Reply::Offset { at } => {
            out.extend_from_slice(b"offset ")?;
            put_number(out, *at)
        }
        Reply::Bytes { bytes } => {
            out.extend_from_slice(b"data ")?;
            put_word(out, bytes.as_slice())
        }
        Reply::Stat { kind, size } => {
            out.extend_from_slice(b"stat ")?;
            out.extend_from_slice(text_of_kind(*kind))?;
            out.push(b' ')?;
            put_number(out, u64::from(*size))
        }
        Reply::Names { names } => {
            out.extend_from_slice(b"names")?;
            put_names(out, names.as_slice())
        }
        Reply::Target { bytes } => {
            out.extend_from_slice(b"target ")?;
            put_word(out, bytes.as_slice())
        }
        Reply::Fs { mount, kind } => {
            out.extend_from_slice(b"fs ")?;
            put_number(out, u64::from(*mount))?;
            out.push(b' ')?;
            out.extend_from_slice(text_of_mount(*kind))
        }
        Reply::Fail { errno } => {
            out.extend_from_slice(b"error ")?;
            out.extend_from_slice(errno_text(*errno).as_bytes())
        }
    }
}
