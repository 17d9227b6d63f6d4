// Which mount covers a place.
ghost use Rattle.std.specs.Prelude.{◌≡◌};
ghost use Rattle.vfs_tree.specs.Mounts.{is_left, is_on, covers, covering};

use crate::mount::Mount;
use crate::place::Place;
use crate::world::World;

impl Mount {
    /// Whether it is on that directory.
    pub fn is_on(&self, place: &Place) -> bool
        ensures { result ≡ is_on self.now.on place.now }
    {
        match &self.on {
            Some(on) => on.same(place),
            None => false,
        }
    }
}

impl World {
    /// Whether a forced unmount is leaving a mount.
    pub fn is_left(&self, mount: u32) -> bool
        ensures { result ≡ is_left self.now.leaving mount }
    {
        for (_caller, left) in self.leaving.iter() {
            if *left == mount {
                return true;
            }
        }
        false
    }

    /// Whether a mount covers a place: it is on it, and no forced unmount is leaving it.
    pub fn covers(&self, mount: &Mount, place: &Place) -> bool
        ensures { result ≡ covers self.now.leaving place.now mount.now }
    {
        mount.is_on(place) && !self.is_left(mount.number)
    }

    /// The number of the mount that covers a place. It looks at each mount.
    pub fn covering(&self, place: &Place) -> Option<u32>
        ensures { result ≡ covering self.now.mounts self.now.leaving place.now }
    {
        for (_number, mount) in self.mounts.iter() {
            if self.covers(mount, place) {
                return Some(mount.number);
            }
        }
        None
    }
}
