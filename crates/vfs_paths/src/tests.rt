use super::*;
use finite_maps::NumberMap;
use std::alloc::{AllocError, Global};
use std::test::Fail;
use vfs_tree::{
    Bytes, Component, DirFacts, Found, Kind, Leaf, Mount, MountKind, Name, NameEntry, NameFault,
    NameMap, NameView, Need, Place, Step,
};

// A small tree: the root directory 1 with the file `f`, the link `l` to `d/f` and the empty directory `d`. A union whose
// upper layer is `d` and whose lower layer is the root directory covers `d`.
#[derive(Drop)]
struct Small {
    names: NameMap<NameEntry>,
    target: Bytes,
    mounts: NumberMap<Mount>,
    covered: Place,
}

impl NameView for Small {
    ghost use Rattle.std.specs.Prelude.{◌||◌, ◌==◌, if◌then◌else◌, Some, None, true, false};
    ghost use Rattle.std.specs.FinMap.{get};
    ghost use Rattle.vfs_tree.specs.Layers.{same_place};
    ghost use Rattle.vfs_tree.specs.declared.node.Kind.TheVariants as kind;

    ghost facts = { λ v. record {
      entry = λ s d n. if d == 1 then get v.names n else None;
      kind = λ s i. if i == 1 then Some kind.Dir else (if i == 2 then Some kind.File else (if i == 3 then Some kind.Link else (if i == 4 then Some kind.Dir else None)));
      dir = λ s i. if (i == 1) || (i == 4) then Some (record { parent = 1; opaque = false; linked = true }) else None;
      name_of = λ s i. None;
      target = λ s i. if i == 3 then Some v.target else None;
      covering = λ p. if same_place p v.covered then Some 1 else None;
      mount = get v.mounts;
    } };

    fn entry(&self, _store: u32, dir: u32, name: &Name) -> Option<NameEntry> {
        if dir == 1 {
            return self.names.get(name).copied();
        }
        None
    }

    fn kind(&self, _store: u32, ino: u32) -> Option<Kind> {
        if ino == 1 {
            return Some(Kind::Dir);
        }
        if ino == 2 {
            return Some(Kind::File);
        }
        if ino == 3 {
            return Some(Kind::Link);
        }
        if ino == 4 { Some(Kind::Dir) } else { None }
    }

    fn dir(&self, _store: u32, ino: u32) -> Option<DirFacts> {
        if ino == 1 || ino == 4 {
            return Some(DirFacts {
                parent: 1,
                opaque: false,
                linked: true,
            });
        }
        None
    }

    fn name_of(&self, _store: u32, _ino: u32) -> Option<&Name> {
        None
    }

    fn target(&self, _store: u32, ino: u32) -> Option<&[u8]> {
        if ino == 3 {
            return Some(self.target.as_slice());
        }
        None
    }

    fn covering(&self, place: &Place) -> Option<u32> {
        if place.same(&self.covered) {
            return Some(1);
        }
        None
    }

    fn mount(&self, number: u32) -> Option<&Mount> {
        self.mounts.get(number)
    }
}

fn name(alloc: Global, bytes: &[u8]) -> Result<Name, NameFault> {
    Name::new(alloc, bytes)
}

fn small_tree(alloc: Global) -> Result<Small, NameFault> {
    let mut names = NameMap::new(alloc);
    for (bytes, ino) in [(b"f".as_slice(), 2), (b"l", 3), (b"d", 4)] {
        let name = name(alloc, bytes)?;
        if names.insert(name, NameEntry::Ino { ino }).is_err() {
            return Err(NameFault::NoMemory);
        }
    }
    match mounted(alloc, names) {
        Ok(view) => Ok(view),
        Err(_) => Err(NameFault::NoMemory),
    }
}

fn mounted(alloc: Global, names: NameMap<NameEntry>) -> Result<Small, AllocError> {
    let mut mounts = NumberMap::new(alloc);
    mounts.insert(
        0,
        Mount {
            number: 0,
            kind: MountKind::Mem,
            on: None,
            cut: false,
        },
    )?;
    mounts.insert(
        1,
        Mount {
            number: 1,
            kind: MountKind::Union {
                store: 0,
                upper: 4,
                lower: Place::mem(0, 1),
            },
            on: Some(Place::mem(0, 4)),
            cut: false,
        },
    )?;
    Ok(Small {
        names,
        target: Bytes::copy_of(alloc, b"d/f")?,
        mounts,
        covered: Place::mem(0, 4),
    })
}

// What `f` is through the union.
fn low_file(alloc: Global) -> Result<Place, NameFault> {
    let name = name(alloc, b"f")?;
    match Place::union_low(alloc, 1, 4, name, Place::mem(0, 2)) {
        Ok(place) => Ok(place),
        Err(_) => Err(NameFault::NoMemory),
    }
}

fn at_root() -> Step<Place, Need> {
    Step::Go {
        value: Place::mem(0, 1),
    }
}

fn is_at(found: &Found, at: &Place) -> bool {
    match found {
        Found::At { place } => place.same(at),
        _ => false,
    }
}

#[test]
fn paths_are_read(rt: HostRuntime) -> Result<(), Fail> {
    let alloc = rt.alloc();
    let path = parse_path(alloc, b"//a/./..//b/")?;
    assert!(rt; path.is_absolute());
    assert_eq!(rt; path.len(), 4);
    assert!(rt; matches!(path.component(1), Some(Component::Dot)));
    assert!(rt; matches!(path.component(2), Some(Component::DotDot)));
    assert!(rt; path.component(4).is_none());
    match path.component(3) {
        Some(Component::Name { name }) => assert_eq!(rt; name.as_slice(), b"b".as_slice()),
        _ => assert!(rt; false),
    }
    assert!(rt; !parse_path(alloc, b"a")?.is_absolute());
    assert_eq!(rt; parse_path(alloc, b"/")?.len(), 0);
    Ok(())
}

#[test]
fn places_that_are_found(rt: HostRuntime) -> Result<(), Fail> {
    let alloc = rt.alloc();
    let view = small_tree(alloc)?;
    let table = [
        (b"/".as_slice(), Leaf::Follow, Place::mem(0, 1)),
        (b"f", Leaf::Follow, Place::mem(0, 2)),
        (b"/l", Leaf::NoFollow, Place::mem(0, 3)),
        (b"/l", Leaf::Follow, low_file(alloc)?),
        (b"/d", Leaf::Follow, Place::union_up(1, 4)),
        (b"/d/../l", Leaf::NoFollow, Place::mem(0, 3)),
        (b"/d/f", Leaf::Create, low_file(alloc)?),
        (b"/d/..", Leaf::NoFollow, Place::mem(0, 1)),
    ];
    for (text, leaf, at) in table {
        let found = find(alloc, &view, leaf, at_root(), text)?;
        assert!(rt; is_at(&found, &at));
    }
    Ok(())
}

// What a text names at the union's root.
fn named(alloc: Global, view: &Small, text: &[u8], follow: bool) -> Result<Walked, PathFault> {
    let start = Place::union_up(1, 4);
    let path = parse_path(alloc, text)?;
    match walk_view(alloc, view, &start, &path, follow) {
        Ok(walked) => Ok(walked),
        Err(_) => Err(PathFault::NoMemory),
    }
}
