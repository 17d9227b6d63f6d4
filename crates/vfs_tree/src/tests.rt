use super::*;
use finite_maps::Duplicate;
use std::alloc::Global;
use std::test::Fail;

fn name(alloc: Global, bytes: &[u8]) -> Result<Name, NameFault> {
    Name::new(alloc, bytes)
}

#[test]
fn bytes(rt: HostRuntime) -> Result<(), Fail> {
    let alloc = rt.alloc();
    let mut bytes = Bytes::new(alloc);
    assert!(rt; bytes.is_empty());
    bytes.extend_from_slice(b"ab")?;
    bytes.extend_from_slice(b"\0")?;
    assert_eq!(rt; bytes.len(), 3);
    assert_eq!(rt; bytes.duplicate(alloc)?.as_slice(), b"ab\0".as_slice());
    let of = Bytes::of(Vec::from_slice(alloc, b"c")?);
    assert_eq!(rt; of.as_slice(), b"c".as_slice());
    assert_eq!(rt; Bytes::copy_of(alloc, b"de")?.as_slice(), b"de".as_slice());
    let mut buffer = ByteBuffer::new(alloc);
    buffer.reserve(5)?;
    buffer.push_slice(b"fgh");
    buffer.push_slice(b"ij");
    assert_eq!(rt; buffer.as_slice(), b"fghij".as_slice());
    assert_eq!(rt; buffer.into_bytes().as_slice(), b"fghij".as_slice());
    Ok(())
}

#[test]
fn places_through_mounts(rt: HostRuntime) -> Result<(), Fail> {
    let alloc = rt.alloc();
    let lower = Place::null(alloc, 1, Place::mem(0, 2))?;
    let other = Place::null(alloc, 1, Place::mem(0, 3))?;
    assert!(rt; !lower.same(&other));
    assert_eq!(rt; lower.mount(), 1);
    assert!(rt; lower.bare().same(&Place::mem(0, 2)));
    let low = Place::union_low(alloc, 2, 5, name(alloc, b"f")?, lower)?;
    assert!(rt; low.duplicate(alloc)?.same(&low));
    assert!(rt; !low.same(&Place::union_up(2, 5)));
    Ok(())
}

#[test]
fn a_map_by_names(rt: HostRuntime) -> Result<(), Fail> {
    let alloc = rt.alloc();
    let long = name(alloc, b"ab")?;
    let short = name(alloc, b"b")?;
    let mut map = NameMap::new(alloc);
    assert!(rt; map.insert(short.duplicate(alloc)?, 2)?.is_none());
    assert!(rt; map.insert(long.duplicate(alloc)?, 1)?.is_none());
    assert_eq!(rt; map.insert(short.duplicate(alloc)?, 3)?, Some(2));
    let mut copy = map.duplicate(alloc)?;
    assert_eq!(rt; map.remove(&long), Some(1));
    assert!(rt; map.get(&long).is_none());
    assert_eq!(rt; map.get(&short), Some(&3));
    assert_eq!(rt; copy.iter().next(), Some((&long, &1)));
    assert_eq!(rt; copy.remove(&short), Some(3));
    Ok(())
}

/// The bytes of a regular file.
fn bytes_at(store: &CountedStore, ino: u32) -> Option<&[u8]> {
    match store.node(ino) {
        Some(Node::File { bytes }) => Some(bytes.as_slice()),
        _ => None,
    }
}

#[test]
fn bytes_of_a_file(rt: HostRuntime) -> Result<(), Fail> {
    let alloc = rt.alloc();
    let mut store = CountedStore::new(alloc)?;
    let file = Node::File {
        bytes: Bytes::new(alloc),
    };
    let ino = store.make(1, Name::new(alloc, b"file")?, file)?;
    store.write(ino, 2, b"ab")?;
    assert_eq!(rt; bytes_at(&store, ino), Some(b"\0\0ab".as_slice()));
    store.resize(ino, 3)?;
    assert_eq!(rt; bytes_at(&store, ino), Some(b"\0\0a".as_slice()));
    store.resize(ino, 4)?;
    assert_eq!(rt; bytes_at(&store, ino), Some(b"\0\0a\0".as_slice()));
    Ok(())
}

/// A directory without names.
fn empty_directory(alloc: Global) -> Node {
    Node::Dir {
        parent: 1,
        opaque: false,
        names: NameMap::new(alloc),
    }
}

/// What is to be known of a directory of the root that isn't opaque.
fn facts(linked: bool) -> Option<DirFacts> {
    Some(DirFacts {
        parent: 1,
        opaque: false,
        linked,
    })
}

#[test]
fn names_of_a_directory(rt: HostRuntime) -> Result<(), Fail> {
    let alloc = rt.alloc();
    let mut store = CountedStore::new(alloc)?;
    let first = Name::new(alloc, b"first")?;
    let ino = store.make(1, Name::new(alloc, b"first")?, empty_directory(alloc))?;
    assert_eq!(rt; store.name_of(ino), Some(&first));
    assert!(rt; store.is_linked(ino));
    store.put_entry(1, Name::new(alloc, b"second")?, NameEntry::Ino { ino })?;
    store.clear(1, &first);
    assert_eq!(rt; store.name_of(ino), Some(&Name::new(alloc, b"second")?));
    assert_eq!(rt; store.dir(ino), facts(true));
    store.clear(1, &Name::new(alloc, b"second")?);
    assert_eq!(rt; store.name_of(ino), None);
    assert_eq!(rt; store.dir(ino), facts(false));
    assert!(rt; store.is_linked(1) && !store.is_named(1));
    Ok(())
}

#[test]
fn names_that_nothing_counted(rt: HostRuntime) -> Result<(), Fail> {
    let alloc = rt.alloc();
    let mut counted = CountedStore::new(alloc)?;
    let ino = counted.make(1, Name::new(alloc, b"name")?, empty_directory(alloc))?;
    let store = CountedStore::of(alloc, counted.store().duplicate(alloc)?);
    assert_eq!(rt; store.name_of(ino), Some(&Name::new(alloc, b"name")?));
    assert_eq!(rt; store.dir(ino), facts(true));
    assert!(rt; !store.is_named(ino + 1));
    Ok(())
}
