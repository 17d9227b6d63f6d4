use crate::{Spot, clear_white, link, remove, rename};
use std::alloc::Global;
use std::test::Fail;
use vfs_tree::{CountedStore, Name, NameEntry, NameFault, NameMap, Node};

fn name(alloc: Global, bytes: &[u8]) -> Result<Name, NameFault> {
    Name::new(alloc, bytes)
}

fn spot(alloc: Global, dir: u32, bytes: &[u8]) -> Result<Spot, NameFault> {
    Ok(Spot {
        dir,
        name: name(alloc, bytes)?,
    })
}

/// What the root directory has at a name.
fn at(store: &CountedStore, key: &Name) -> Option<NameEntry> {
    store.entry_of(1, key)
}

#[test]
fn names(rt: HostRuntime) -> Result<(), Fail> {
    let alloc = rt.alloc();
    let first = name(alloc, b"first")?;
    let second = name(alloc, b"second")?;
    let mut store = CountedStore::new(alloc)?;
    let dir = Node::Dir {
        parent: 1,
        opaque: false,
        names: NameMap::new(alloc),
    };
    assert_eq!(rt; store.make(1, name(alloc, b"first")?, dir)?, 2);
    let gives = Some(NameEntry::Ino { ino: 2 });
    assert_eq!(rt; at(&store, &first), gives);
    let from = spot(alloc, 1, b"first")?;
    let to = spot(alloc, 1, b"second")?;
    rename(alloc, &mut store, from, to, true, false)?;
    assert_eq!(rt; at(&store, &first), Some(NameEntry::White));
    assert_eq!(rt; at(&store, &second), gives);
    clear_white(&mut store, 1, &first);
    assert_eq!(rt; at(&store, &first), None);
    remove(alloc, &mut store, 1, name(alloc, b"second")?, false)?;
    assert_eq!(rt; at(&store, &second), None);
    link(&mut store, 1, name(alloc, b"first")?, 2)?;
    assert_eq!(rt; at(&store, &first), gives);
    Ok(())
}
