ghost use Rattle.std.specs.Prelude.{◌≡◌, ◌<◌, IfOk};
ghost use Rattle.vfs_tree.specs.Nodes.{AreBelow, IsNumbered};
ghost use Rattle.vfs_tree.specs.Start.{empty_store, root_mount, root_cwds, start_world};

use crate::counted_store::CountedStore;
use crate::limits::Limits;
use crate::mount::{Mount, MountKind};
use crate::name_map::NameMap;
use crate::node::{Node, Store};
use crate::open::{Cwd, Open};
use crate::place::Place;
use finite_maps::{Duplicate, NumberMap, PairMap};
use std::alloc::{AllocError, Global};

/// One file tree with its mounts, and what its callers have open.
#[derive(Debug, Drop)]
pub struct World {
    /// The stores of the memory file systems by mount number. None is ever forgotten.
    pub stores: NumberMap<CountedStore>,
    /// The mounts by number.
    pub mounts: NumberMap<Mount>,
    /// The open files and directories by caller and descriptor.
    pub opens: PairMap<Open>,
    /// The current directories by caller.
    pub cwds: NumberMap<Cwd>,
    /// By caller, the mount that the caller's forced unmount has detached and not yet taken away.
    pub leaving: NumberMap<u32>,
    /// The number of the next mount that is made.
    pub next_mount: u32,
    /// How much the world may hold.
    pub limits: Limits,
}

impl Store {
    /// A store that has its root directory alone. The only fault is want of memory.
    pub fn new(alloc: Global) -> Result<Store, AllocError>
        ensures empty { IfOk result (λ store. store ≡ empty_store) }
        ensures below { IfOk result (λ store. AreBelow store.nodes store.next) }
    {
        let mut nodes = NumberMap::new(alloc);
        let root = Node::Dir {
            parent: 1,
            opaque: false,
            names: NameMap::new(alloc),
        };
        nodes.insert(1, root)?;
        Ok(Store { nodes, next: 2 })
    }
}

/// The current directories of the callers from 1 to `callers`, each the root directory.
fn start_cwds(alloc: Global, callers: u32) -> Result<NumberMap<Cwd>, AllocError>
    requires { callers < 4294967295 }
    ensures { IfOk result (λ cwds. cwds ≡ root_cwds callers) }
{
    let mut cwds = NumberMap::new(alloc);
    for before in 0..callers {
        let cwd = Cwd {
            place: Place::mem(0, 1),
            dead: false,
        };
        cwds.insert(before + 1, cwd)?;
    }
    Ok(cwds)
}

/// The world with mount 0 alone, whose root is each caller's current directory.
fn root_world(alloc: Global, limits: Limits) -> Result<World, AllocError>
    requires { limits.callers < 4294967295 }
    ensures { IfOk result (λ world. world ≡ start_world limits) }
{
    let mut stores = NumberMap::new(alloc);
    stores.insert(0, CountedStore::new(alloc)?)?;
    let root = Mount {
        number: 0,
        kind: MountKind::Mem,
        on: None,
        cut: false,
    };
    let mut mounts = NumberMap::new(alloc);
    mounts.insert(0, root)?;
    Ok(World {
        stores,
        mounts,
        opens: PairMap::new(alloc),
        cwds: start_cwds(alloc, limits.callers)?,
        leaving: NumberMap::new(alloc),
        next_mount: 1,
        limits,
    })
}

impl World {
    /// The world at the start: mount 0 is a memory file system with an empty root, which is every caller's current
    /// directory. The only fault is want of memory.
    pub fn start(alloc: Global, limits: Limits) -> Result<World, AllocError>
        requires { limits.callers < 4294967295 }
        ensures start { IfOk result (λ world. world ≡ start_world limits) }
        ensures numbered { IfOk result IsNumbered }
    {
        let world = root_world(alloc, limits)?;
        Ok(world)
    }
}

impl Duplicate for World {
    fn duplicate(&self, alloc: Global) -> Result<Self, AllocError> {
        Ok(World {
            stores: self.stores.duplicate(alloc)?,
            mounts: self.mounts.duplicate(alloc)?,
            opens: self.opens.duplicate(alloc)?,
            cwds: self.cwds.duplicate(alloc)?,
            leaving: self.leaving.duplicate(alloc)?,
            next_mount: self.next_mount,
            limits: self.limits,
        })
    }
}
