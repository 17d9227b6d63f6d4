ghost use Rattle.std.specs.Prelude.{◌≡◌};
ghost use Rattle.op_vector.specs.Rack.{IsProperBox};
ghost use Rattle.op_vector.specs.Routes.{mem_route};
ghost use Rattle.op_vector.specs.declared.data.VKind.TheVariants.{Mem};

use crate::callers::{clear_white, cut, forget, link, make, remove, rename, write};
use crate::hundred_edits::are_equal;
use crate::{MemFs, MemVop, NewNode};
use mem_file::MemFile;
use op_vector::{BoxedVop, Op, Route, VData, VKind, Vop, ask};
use std::alloc::Global;
use std::test::Fail;
use vfs_tree::{ByteBuffer, Bytes, DirFacts, Errno, Kind, Name, NameEntry, Node, Store};

/// A file system with a directory, which has the number 2, at `dir`.
fn with_dir(alloc: Global) -> Result<MemFs, Fail> {
    let mut fs = MemFs::new(alloc)?;
    make(alloc, &mut fs, 1, Name::new(alloc, b"dir")?, NewNode::Dir)?;
    Ok(fs)
}

/// A file system with a regular file, which has the number 2, at `file`.
fn with_file(alloc: Global) -> Result<MemFs, Fail> {
    let mut fs = MemFs::new(alloc)?;
    make(alloc, &mut fs, 1, Name::new(alloc, b"file")?, NewNode::File)?;
    Ok(fs)
}

#[test]
fn a_new_directory(rt: HostRuntime) -> Result<(), Fail> {
    let alloc = rt.alloc();
    let mut fs = with_dir(alloc)?;
    let name = Name::new(alloc, b"inner")?;
    assert_eq!(rt; make(alloc, &mut fs, 2, name, NewNode::Dir)?, 3);
    let facts = DirFacts {
        parent: 2,
        opaque: false,
        linked: true,
    };
    assert_eq!(rt; fs.facts(3), Some(facts));
    Ok(())
}

#[test]
fn a_new_copy(rt: HostRuntime) -> Result<(), Fail> {
    let alloc = rt.alloc();
    let mut fs = MemFs::new(alloc)?;
    let mut bytes = MemFile::new(alloc);
    bytes.reserve_to(alloc, 3)?;
    bytes.write_at(0, b"abc");
    let name = Name::new(alloc, b"copy")?;
    assert_eq!(rt; make(alloc, &mut fs, 1, name, NewNode::Copy { bytes })?, 2);
    assert_eq!(rt; fs.size(2), 3);
    Ok(())
}

#[test]
fn rename_into_another_directory(rt: HostRuntime) -> Result<(), Fail> {
    let alloc = rt.alloc();
    let mut fs = with_dir(alloc)?;
    let old = Name::new(alloc, b"old")?;
    let new = Name::new(alloc, b"new")?;
    make(alloc, &mut fs, 1, Name::new(alloc, b"old")?, NewNode::Dir)?;
    rename(alloc, &mut fs, 1, &old, 2, &new, false, false)?;
    assert_eq!(rt; fs.find(1, &old), None);
    assert_eq!(rt; fs.find(2, &new), Some(NameEntry::Ino { ino: 3 }));
    let facts = DirFacts {
        parent: 2,
        opaque: false,
        linked: true,
    };
    assert_eq!(rt; fs.facts(3), Some(facts));
    Ok(())
}

#[test]
fn a_whiteout_that_goes(rt: HostRuntime) -> Result<(), Fail> {
    let alloc = rt.alloc();
    let mut fs = MemFs::new(alloc)?;
    let name = Name::new(alloc, b"name")?;
    remove(alloc, &mut fs, 1, &name, true)?;
    clear_white(&mut fs, 1, &name)?;
    assert_eq!(rt; fs.find(1, &name), None);
    assert_eq!(rt; fs.list_white(alloc, 1)?.len(), 0);
    Ok(())
}

#[test]
fn a_node_that_is_forgotten(rt: HostRuntime) -> Result<(), Fail> {
    let alloc = rt.alloc();
    let mut fs = with_file(alloc)?;
    remove(alloc, &mut fs, 1, &Name::new(alloc, b"file")?, false)?;
    assert_eq!(rt; fs.kind(2), Some(Kind::File));
    forget(&mut fs, 2)?;
    assert_eq!(rt; fs.kind(2), None);
    Ok(())
}

/// The store without the node of a number.
fn store_without(alloc: Global, fs: &MemFs, ino: u32) -> Result<Store, Fail> {
    let mut store = fs.store(alloc)?;
    store.nodes.remove(ino);
    Ok(store)
}

#[test]
fn a_directory_that_is_forgotten_with_a_name(rt: HostRuntime) -> Result<(), Fail> {
    let alloc = rt.alloc();
    let mut fs = with_dir(alloc)?;
    remove(alloc, &mut fs, 1, &Name::new(alloc, b"dir")?, false)?;
    let name = Name::new(alloc, b"inner")?;
    assert_eq!(rt; make(alloc, &mut fs, 2, name, NewNode::Dir)?, 3);
    assert!(rt; fs.is_named(3));
    let left = store_without(alloc, &fs, 2)?;
    forget(&mut fs, 2)?;
    assert!(rt; are_equal(alloc, &fs.store(alloc)?, &left)?);
    assert!(rt; !fs.is_named(3));
    assert!(rt; fs.name_of(3).is_none());
    let left = store_without(alloc, &fs, 3)?;
    forget(&mut fs, 3)?;
    assert!(rt; are_equal(alloc, &fs.store(alloc)?, &left)?);
    Ok(())
}

#[test]
fn one_look_up_reads_one_record(rt: HostRuntime) -> Result<(), Fail> {
    let alloc = rt.alloc();
    let mut fs = MemFs::new(alloc)?;
    let name = Name::new(alloc, b"name")?;
    assert_eq!(rt; fs.reads(1), Some(0));
    assert_eq!(rt; fs.find(1, &name), None);
    assert_eq!(rt; fs.reads(1), Some(1));
    assert_eq!(rt; fs.reads(2), None);
    Ok(())
}

#[test]
fn names_in_byte_order(rt: HostRuntime) -> Result<(), Fail> {
    let alloc = rt.alloc();
    let mut fs = with_file(alloc)?;
    link(alloc, &mut fs, 2, 1, Name::new(alloc, b"again")?)?;
    let names = fs.list(alloc, 1)?;
    assert_eq!(rt; names.len(), 2);
    assert_eq!(rt;
        names.as_slice().first(),
        Some(&Name::new(alloc, b"again")?)
    );
    assert_eq!(rt; names.as_slice().last(), Some(&Name::new(alloc, b"file")?));
    Ok(())
}

#[test]
fn bytes_of_a_file(rt: HostRuntime) -> Result<(), Fail> {
    let alloc = rt.alloc();
    let mut fs = with_file(alloc)?;
    write(alloc, &mut fs, 2, 2, b"abcd")?;
    let mut read = ByteBuffer::new(alloc);
    read.reserve(4)?;
    fs.read_into(2, 1, 4, &mut read);
    assert_eq!(rt; read.as_slice(), b"\0abc".as_slice());
    Ok(())
}

#[test]
fn a_file_that_is_cut(rt: HostRuntime) -> Result<(), Fail> {
    let alloc = rt.alloc();
    let mut fs = with_file(alloc)?;
    write(alloc, &mut fs, 2, 0, b"abcd")?;
    cut(alloc, &mut fs, 2, 3)?;
    assert_eq!(rt; fs.size(2), 3);
    match fs.store(alloc)?.nodes.get(2) {
        Some(Node::File { bytes }) => assert_eq!(rt; bytes.as_slice(), b"abc".as_slice()),
        _ => assert!(rt; false),
    }
    Ok(())
}

#[test]
fn routes(rt: HostRuntime) -> Result<(), Fail> {
    let vop = MemVop;
    let data = VData::Mem { mount: 3, ino: 7 };
    let refused = Route::Refuse {
        errno: Errno::EBADF,
    };
    assert_eq!(rt; vop.lookup(&data), Route::Here { ino: 7 });
    assert_eq!(rt; vop.lookup(&VData::Empty), refused);
    Ok(())
}

/// The route that the vector of a memory file system answers.
fn route_of<B: Vop>(vector: &B, vd: &VData, op: Op) -> Route
    requires { IsProperBox B.vkind B.routes Mem vector.now }
    ensures { result ≡ mem_route vd.now op }
{
    ask(vector, vd, op)
}

#[test]
fn a_box_is_asked_for_each_operation(rt: HostRuntime) -> Result<(), Fail> {
    let boxed: BoxedVop = Box::new(rt.alloc(), MemVop)?;
    let data = VData::Mem { mount: 3, ino: 7 };
    let operations = [
        Op::Lookup,
        Op::Open,
        Op::Read,
        Op::Write,
        Op::Getattr,
        Op::Readdir,
        Op::Readlink,
        Op::Create,
        Op::Remove,
        Op::Rename,
        Op::Link,
        Op::Truncate,
        Op::Inactive,
        Op::Reclaim,
    ];
    assert!(rt; boxed.kind() == VKind::Mem);
    for op in operations {
        assert_eq!(rt; route_of(&boxed, &data, op), Route::Here { ino: 7 });
    }
    Ok(())
}

#[test]
fn the_name_of_a_renamed_directory(rt: HostRuntime) -> Result<(), Fail> {
    let alloc = rt.alloc();
    let mut fs = with_dir(alloc)?;
    let new = Name::new(alloc, b"new")?;
    rename(
        alloc,
        &mut fs,
        1,
        &Name::new(alloc, b"dir")?,
        1,
        &new,
        false,
        false,
    )?;
    assert_eq!(rt; fs.name_of(2), Some(&new));
    Ok(())
}
