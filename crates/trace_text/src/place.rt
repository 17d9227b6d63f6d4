ghost use Rattle.std.specs.Prelude.{◌≡◌, ◌++◌, OnOk};
ghost use Rattle.trace_text.specs.Place.{numbers_text, place_text};

use script_text::{put_number, put_word};
use std::alloc::AllocError;
use vfs_tree::{Place, View};

/// Appends a mount's number and an inode number. The only fault is want of memory.
pub fn put_numbers(out: &mut Vec<u8>, mount: u32, ino: u32) -> Result<(), AllocError>
    ensures { OnOk result (out.new.items ≡ out.old.items ++ numbers_text mount ino) }
{
    put_number(out, u64::from(mount))?;
    out.push(b':')?;
    put_number(out, u64::from(ino))
}

/// Appends the text of a place. The only fault is want of memory.
pub fn put_place(out: &mut Vec<u8>, place: &Place) -> Result<(), AllocError>
    ensures { OnOk result (out.new.items ≡ out.old.items ++ place_text place.now) }
{
    match &place.view {
        View::Mem { mount, ino } => {
            out.push(b'm')?;
            put_numbers(out, *mount, *ino)
        }
        View::Null { mount, lower } => {
            out.push(b'n')?;
            put_number(out, u64::from(*mount))?;
            out.push(b'(')?;
            put_place(out, lower)?;
            out.extend_from_slice(b")")
        }
        View::UnionUp { mount, ino } => {
            out.push(b'u')?;
            put_numbers(out, *mount, *ino)
        }
        View::UnionLow {
            mount,
            dir,
            name,
            lower,
        } => {
            out.push(b'l')?;
            put_numbers(out, *mount, *dir)?;
            out.push(b':')?;
            put_word(out, name.as_slice())?;
            out.push(b'(')?;
            put_place(out, lower)?;
            out.extend_from_slice(b")")
        }
    }
}
