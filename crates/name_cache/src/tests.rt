use super::*;
use op_vector::Vid;
use std::test::Fail;
use vfs_tree::Name;

fn vnode(slot: u32) -> Vid {
    Vid {
        slot,
        generation: 1,
    }
}

#[test]
fn entries_come_and_go(rt: HostRuntime) -> Result<(), Fail> {
    let alloc = rt.alloc();
    let mut cache = NameCache::new(alloc)?;
    let home = Name::new(alloc, b"home")?;
    let etc = Name::new(alloc, b"etc")?;
    assert!(rt; cache.look(vnode(1), &home) == Cached::Miss);
    cache.enter(vnode(1), &home, vnode(2))?;
    cache.enter_absent(vnode(1), &etc)?;
    cache.enter(vnode(2), &etc, vnode(3))?;
    assert!(rt; cache.look(vnode(1), &home) == Cached::Hit { vid: vnode(2) });
    assert!(rt; cache.look(vnode(1), &etc) == Cached::Absent);
    cache.enter(vnode(1), &etc, vnode(4))?;
    assert!(rt; cache.look(vnode(1), &etc) == Cached::Hit { vid: vnode(4) });
    cache.purge(vnode(1), &etc);
    assert!(rt; cache.look(vnode(1), &etc) == Cached::Miss);
    cache.purge_vnode(vnode(2));
    assert!(rt; cache.look(vnode(1), &home) == Cached::Miss);
    assert!(rt; cache.look(vnode(2), &etc) == Cached::Miss);
    Ok(())
}

// Enters one name in each of `count` directories.
fn enters(cache: &mut NameCache, name: &Name, count: u32) -> bool {
    let mut all = true;
    for dir in 0..count {
        all = all && cache.enter_absent(vnode(dir), name).is_ok();
    }
    all
}

#[test]
fn the_least_recently_used_entry_goes(rt: HostRuntime) -> Result<(), Fail> {
    let alloc = rt.alloc();
    let mut cache = NameCache::new(alloc)?;
    let name = Name::new(alloc, b"name")?;
    assert!(rt; enters(&mut cache, &name, 1024));
    assert!(rt; cache.look(vnode(0), &name) == Cached::Absent);
    cache.enter_absent(vnode(1024), &name)?;
    assert!(rt; cache.look(vnode(0), &name) == Cached::Absent);
    assert!(rt; cache.look(vnode(1), &name) == Cached::Miss);
    assert!(rt; cache.look(vnode(2), &name) == Cached::Absent);
    assert!(rt; cache.look(vnode(1024), &name) == Cached::Absent);
    Ok(())
}
