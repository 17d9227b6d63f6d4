ghost use Rattle.std.specs.Prelude.{◌≡◌, ◌++◌, OnOk};
ghost use Rattle.trace_text.specs.Inner.{union_name_text, ref_text, inner_text};

use call_model::{Inner, Ref};
use script_text::{put_number, put_word};
use std::alloc::AllocError;
use vfs_tree::Name;

fn put_union_name(out: &mut Vec<u8>, mount: u32, dir: u32, name: &Name) -> Result<(), AllocError>
    ensures { OnOk result (out.new.items ≡ out.old.items ++ union_name_text mount dir name.now) }
{
    put_number(out, u64::from(mount))?;
    out.push(b' ')?;
    put_number(out, u64::from(dir))?;
    out.push(b' ')?;
    put_word(out, name.as_slice())
}

fn put_ref(out: &mut Vec<u8>, at: Ref) -> Result<(), AllocError>
    ensures { OnOk result (out.new.items ≡ out.old.items ++ ref_text at) }
{
    match at {
        Ref::Fd { caller, fd } => {
            put_number(out, u64::from(caller))?;
            out.extend_from_slice(b" fd ")?;
            put_number(out, u64::from(fd))
        }
        Ref::Cwd { caller } => {
            put_number(out, u64::from(caller))?;
            out.extend_from_slice(b" cwd")
        }
    }
}

/// Appends what an inner entry says, without its caller. The only fault is want of memory.
pub fn put_inner(out: &mut Vec<u8>, what: &Inner) -> Result<(), AllocError>
    ensures { OnOk result (out.new.items ≡ out.old.items ++ inner_text what.now) }
{
    match what {
        Inner::Shadow { mount, dir, name } => {
            out.extend_from_slice(b"shadow ")?;
            put_union_name(out, *mount, *dir, name)
        }
        Inner::CopyUp { mount, dir, name } => {
            out.extend_from_slice(b"copyup ")?;
            put_union_name(out, *mount, *dir, name)
        }
        Inner::Detach { mount } => {
            out.extend_from_slice(b"detach ")?;
            put_number(out, u64::from(*mount))
        }
        Inner::Doom { at } => {
            out.extend_from_slice(b"doom ")?;
            put_ref(out, *at)
        }
    }
}
