ghost use Rattle.std.specs.Prelude.{◌≡◌};

use super::*;
use std::test::Fail;
use vfs_tree::{Mode, Open, Place};

fn file(offset: u64) -> Open {
    Open {
        place: Place::mem(0, 1),
        offset,
        mode: Mode {
            read: true,
            write: false,
            append: false,
        },
        dead: false,
    }
}

fn offset_of(open: Option<&Open>) -> Option<u64> {
    match open {
        Some(open) => Some(open.offset),
        None => None,
    }
}

// Opens the descriptors of caller 1 from 0 on.
fn opens_in_a_row(table: &mut OpenTable, count: u32) -> bool
    requires { table.old.callers ≡ 2 }
    ensures { table.new.callers ≡ 2 }
{
    let mut all = true;
    for fd in 0..count {
        all = all && table.open(1, file(0)) == Ok(fd);
    }
    all
}

// Opens a file, and puts another one in its place.
fn exchanged(table: &mut OpenTable) -> Option<u64>
    requires { table.old.callers ≡ 1 }
    ensures { table.new.callers ≡ 1 }
{
    let Ok(fd) = table.open(1, file(2)) else {
        return None;
    };
    Some(table.set(1, fd, file(3)).offset)
}

#[test]
fn descriptors_come_and_go(rt: HostRuntime) -> Result<(), Fail> {
    let mut table = OpenTable::new(rt.alloc(), 2, 4)?;
    assert!(rt; table.next_open(1, 0) == None);
    assert!(rt; table.open(1, file(10)) == Ok(0));
    assert!(rt; table.open(1, file(11)) == Ok(1));
    assert!(rt; table.open(2, file(20)) == Ok(0));
    assert!(rt; table.slot(1, 0) != table.slot(1, 1));
    let slot = table.slot(1, 1);
    assert!(rt; table.close(1, 0).is_some());
    assert!(rt; table.close(1, 0).is_none());
    assert!(rt; table.close(1, 4294967295).is_none());
    assert!(rt; table.slot(1, 0) == None);
    assert!(rt; table.slot(1, 1) == slot);
    assert!(rt; table.next_open(1, 0) == Some(1));
    assert!(rt; table.next_open(1, 2) == None);
    assert!(rt; table.open(1, file(12)) == Ok(0));
    assert!(rt; offset_of(table.get(1, 0)) == Some(12));
    assert!(rt; offset_of(table.get(1, 1)) == Some(11));
    assert!(rt; offset_of(table.get(2, 0)) == Some(20));
    assert!(rt; offset_of(table.get(2, 32)) == None);
    assert!(rt; table.next_open(2, 0) == Some(0));
    Ok(())
}

#[test]
fn an_open_file_is_exchanged(rt: HostRuntime) -> Result<(), Fail> {
    let mut table = OpenTable::new(rt.alloc(), 1, 2)?;
    assert!(rt; table.open(1, file(1)) == Ok(0));
    assert!(rt; exchanged(&mut table) == Some(2));
    assert!(rt; offset_of(table.get(1, 0)) == Some(1));
    assert!(rt; offset_of(table.get(1, 1)) == Some(3));
    Ok(())
}

#[test]
fn the_33rd_descriptor(rt: HostRuntime) -> Result<(), Fail> {
    let mut table = OpenTable::new(rt.alloc(), 2, 33)?;
    assert!(rt; opens_in_a_row(&mut table, 32));
    assert!(rt; table.open(1, file(0)) == Err(OpenFault::CallerFull));
    assert!(rt; table.open(2, file(0)) == Ok(0));
    assert!(rt; table.open(2, file(0)) == Err(OpenFault::AllFull));
    assert!(rt; table.open(1, file(0)) == Err(OpenFault::CallerFull));
    assert!(rt; table.close(1, 31).is_some());
    assert!(rt; table.open(2, file(0)) == Ok(1));
    assert!(rt; table.open(1, file(0)) == Err(OpenFault::AllFull));
    Ok(())
}

#[test]
fn two_files(rt: HostRuntime) -> Result<(), Fail> {
    let mut table = OpenTable::new(rt.alloc(), 2, 2)?;
    assert!(rt; table.open(2, file(0)) == Ok(0));
    assert!(rt; table.open(1, file(0)) == Ok(0));
    assert!(rt; table.open(1, file(0)) == Err(OpenFault::AllFull));
    assert!(rt; table.close(2, 0).is_some());
    assert!(rt; table.open(1, file(0)) == Ok(1));
    Ok(())
}
