ghost use Rattle.std.specs.Prelude.{◌≡◌, ◌↔◌, IsTrue, IfOk};
ghost use Rattle.vfs_tree.specs.Place as seen;
ghost use Rattle.vfs_tree.specs.Place.{mount_of, bare};
ghost use Rattle.vfs_tree.specs.Layers.{same_place};

use crate::name::Name;
use finite_maps::Duplicate;
use std::alloc::{AllocError, Global};
use std::marker::Model;

/// A place: through which mounts a file is seen.
///
/// A model needs a struct, so the variants stand one field in.
#[cycle(place)]
#[derive(Debug, Drop)]
pub struct Place {
    pub view: View,
}

/// The variants of a place.
#[cycle(place)]
#[derive(Debug, Drop)]
pub enum View {
    /// A node of a memory file system.
    Mem {
        /// The number of the memory mount.
        mount: u32,
        /// The inode number.
        ino: u32,
    },
    /// What a null mount shows of a lower place.
    Null {
        /// The number of the null mount.
        mount: u32,
        /// The place below it.
        lower: Box<Place>,
    },
    /// What a union has in its upper layer.
    UnionUp {
        /// The number of the union mount.
        mount: u32,
        /// The inode number, in the upper layer's store.
        ino: u32,
    },
    /// A regular file or a link that a union has in its lower layer alone.
    UnionLow {
        /// The number of the union mount.
        mount: u32,
        /// The inode number of the union directory, in the upper layer's store.
        dir: u32,
        /// Its name in that directory.
        name: Name,
        /// The place in the lower layer.
        lower: Box<Place>,
    },
}

impl Model for Place {
    ghost use Rattle.vfs_tree.specs.Place.{Seen, coded_seen, nesting};

    ghost Value = { Seen };

    ghost coded = { coded_seen };

    ghost use Rattle.vfs_tree.specs.PlaceView.{seen};

    ghost view = { λ a. seen a.view };

    ghost size = { nesting };

    ghost use Rattle.vfs_tree.specs.PlaceFalls.{nesting_falls};

    ghost size_decreases = { λ a h. nesting_falls a.view };
}

impl Place {
    /// A node of a memory file system.
    pub fn mem(mount: u32, ino: u32) -> Place
        ensures { result ≡ seen.Mem mount ino }
    {
        Place {
            view: View::Mem { mount, ino },
        }
    }

    /// What a null mount shows of the lower place. The only fault is want of memory.
    pub fn null(alloc: Global, mount: u32, lower: Place) -> Result<Place, AllocError>
        ensures { IfOk result (λ place. place ≡ seen.Null mount lower) }
    {
        let lower = Box::new(alloc, lower)?;
        Ok(Place {
            view: View::Null { mount, lower },
        })
    }

    /// What a union has in its upper layer.
    pub fn union_up(mount: u32, ino: u32) -> Place
        ensures { result ≡ seen.UnionUp mount ino }
    {
        Place {
            view: View::UnionUp { mount, ino },
        }
    }

    /// What a union has in its lower layer alone. The only fault is want of memory.
    pub fn union_low(
        alloc: Global,
        mount: u32,
        dir: u32,
        name: Name,
        lower: Place,
    ) -> Result<Place, AllocError>
        ensures { IfOk result (λ place. place ≡ seen.UnionLow mount dir name lower) }
    {
        let lower = Box::new(alloc, lower)?;
        Ok(Place {
            view: View::UnionLow {
                mount,
                dir,
                name,
                lower,
            },
        })
    }

    /// The number of the outermost mount through which the file is seen.
    pub fn mount(&self) -> u32
        ensures { result ≡ mount_of self.now }
    {
        match &self.view {
            View::Mem { mount, .. } => *mount,
            View::Null { mount, .. } => *mount,
            View::UnionUp { mount, .. } => *mount,
            View::UnionLow { mount, .. } => *mount,
        }
    }

    /// The place without its outer null mounts.
    pub fn bare(&self) -> &Place
        ensures { result.now ≡ bare self.now }
    {
        match &self.view {
            View::Null { lower, .. } => lower.bare(),
            View::Mem { .. } => self,
            View::UnionUp { .. } => self,
            View::UnionLow { .. } => self,
        }
    }

    /// Whether the two are one place.
    pub fn same(&self, other: &Place) -> bool
        ensures equal { IsTrue result ↔ (self.now ≡ other.now) }
        ensures test { result ≡ same_place self.now other.now }
    {
        match (&self.view, &other.view) {
            (View::Mem { mount, ino }, View::Mem { mount: m, ino: i }) => *mount == *m
                && *ino == *i,
            (View::Null { mount, lower }, View::Null { mount: m, lower: l }) => {
                *mount == *m && lower.same(l)
            }
            (View::UnionUp { mount, ino }, View::UnionUp { mount: m, ino: i }) => {
                *mount == *m && *ino == *i
            }
            (
                View::UnionLow {
                    mount,
                    dir,
                    name,
                    lower,
                },
                View::UnionLow {
                    mount: m,
                    dir: d,
                    name: n,
                    lower: l,
                },
            ) => *mount == *m && *dir == *d && *name == *n && lower.same(l),
            _ => false,
        }
    }

    fn copied(&self, alloc: Global) -> Result<Place, AllocError>
        ensures { IfOk result (λ copy. copy ≡ self.now) }
    {
        match &self.view {
            View::Mem { mount, ino } => Ok(Place::mem(*mount, *ino)),
            View::Null { mount, lower } => {
                let lower = lower.copied(alloc)?;
                Place::null(alloc, *mount, lower)
            }
            View::UnionUp { mount, ino } => Ok(Place::union_up(*mount, *ino)),
            View::UnionLow {
                mount,
                dir,
                name,
                lower,
            } => {
                let name = name.duplicate(alloc)?;
                let lower = lower.copied(alloc)?;
                Place::union_low(alloc, *mount, *dir, name, lower)
            }
        }
    }
}

impl Duplicate for Place {
    fn duplicate(&self, alloc: Global) -> Result<Self, AllocError> {
        self.copied(alloc)
    }
}
