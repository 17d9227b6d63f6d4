ghost use Rattle.std.specs.Prelude.{◌≡◌};
ghost use Rattle.op_vector.specs.declared.data.Op.{Op};
ghost use Rattle.op_vector.specs.declared.data.VKind.TheVariants.{Mem};
ghost use Rattle.op_vector.specs.Routes.{mem_route};

use op_vector::{Route, VData, VKind, Vop};
use vfs_tree::Errno;

/// The operation vector of the memory file system. It answers every operation itself, at the inode of the vnode's data,
/// and refuses data of another kind with EBADF.
#[derive(Clone, Copy, Debug)]
pub struct MemVop;

/// The inode, or EBADF where the data is of another kind.
fn here(vd: &VData) -> Route
    ensures { (op : Op) → result ≡ mem_route vd.now op }
{
    match vd {
        VData::Mem { ino, .. } => Route::Here { ino: *ino },
        _ => Route::Refuse {
            errno: Errno::EBADF,
        },
    }
}

impl Vop for MemVop {
    ghost vkind = { λ _. Mem };

    ghost routes = { λ _ vd op. mem_route vd op };

    fn kind(&self) -> VKind {
        VKind::Mem
    }

    fn lookup(&self, vd: &VData) -> Route {
        here(vd)
    }

    fn open(&self, vd: &VData) -> Route {
        here(vd)
    }

    fn read(&self, vd: &VData) -> Route {
        here(vd)
    }

    fn write(&self, vd: &VData) -> Route {
        here(vd)
    }

    fn getattr(&self, vd: &VData) -> Route {
        here(vd)
    }

    fn readdir(&self, vd: &VData) -> Route {
        here(vd)
    }

    fn readlink(&self, vd: &VData) -> Route {
        here(vd)
    }

    fn create(&self, vd: &VData) -> Route {
        here(vd)
    }

    fn remove(&self, vd: &VData) -> Route {
        here(vd)
    }

    fn rename(&self, vd: &VData) -> Route {
        here(vd)
    }

    fn link(&self, vd: &VData) -> Route {
        here(vd)
    }

    fn truncate(&self, vd: &VData) -> Route {
        here(vd)
    }

    fn inactive(&self, vd: &VData) -> Route {
        here(vd)
    }

    fn reclaim(&self, vd: &VData) -> Route {
        here(vd)
    }
}
