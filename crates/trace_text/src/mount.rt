ghost use Rattle.std.specs.Prelude.{◌≡◌, ◌++◌, OnOk};
ghost use Rattle.trace_text.specs.Mount.{mount_kind_word, on_text, layers_text, cut_text, mount_head, mount_text};

use crate::place::{put_numbers, put_place};
use script_text::put_number;
use std::alloc::AllocError;
use vfs_tree::{Mount, MountKind, Place};

fn kind_word(kind: &MountKind) -> &'static [u8]
    ensures { result.now ≡ mount_kind_word kind.now }
{
    match kind {
        MountKind::Mem => b"mem",
        MountKind::Null { .. } => b"null",
        MountKind::Union { .. } => b"union",
    }
}

fn put_head(out: &mut Vec<u8>, number: u32, kind: &MountKind) -> Result<(), AllocError>
    ensures { OnOk result (out.new.items ≡ out.old.items ++ mount_head number kind.now) }
{
    out.extend_from_slice(b"mount ")?;
    put_number(out, u64::from(number))?;
    out.push(b' ')?;
    out.extend_from_slice(kind_word(kind))
}

fn put_on(out: &mut Vec<u8>, on: &Option<Place>) -> Result<(), AllocError>
    ensures { OnOk result (out.new.items ≡ out.old.items ++ on_text on.now) }
{
    match on {
        Some(place) => {
            out.extend_from_slice(b" on ")?;
            put_place(out, place)
        }
        None => out.extend_from_slice(b" on -"),
    }
}

fn put_layers(out: &mut Vec<u8>, kind: &MountKind) -> Result<(), AllocError>
    ensures { OnOk result (out.new.items ≡ out.old.items ++ layers_text kind.now) }
{
    match kind {
        MountKind::Mem => Ok(()),
        MountKind::Null { layer } => {
            out.extend_from_slice(b" over ")?;
            put_place(out, layer)
        }
        MountKind::Union {
            store,
            upper,
            lower,
        } => {
            out.extend_from_slice(b" up m")?;
            put_numbers(out, *store, *upper)?;
            out.extend_from_slice(b" low ")?;
            put_place(out, lower)
        }
    }
}

fn cut_end(cut: bool) -> &'static [u8]
    ensures { result.now ≡ cut_text cut }
{
    if cut { b" cut\n" } else { b"\n" }
}

/// Appends the line of a mount. The only fault is want of memory.
pub fn put_mount(out: &mut Vec<u8>, number: u32, mount: &Mount) -> Result<(), AllocError>
    ensures { OnOk result (out.new.items ≡ out.old.items ++ mount_text number mount.now) }
{
    put_head(out, number, &mount.kind)?;
    put_on(out, &mount.on)?;
    put_layers(out, &mount.kind)?;
    out.extend_from_slice(cut_end(mount.cut))
}
