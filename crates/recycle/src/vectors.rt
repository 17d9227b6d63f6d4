ghost use Rattle.std.specs.Prelude.{◌≡◌};
ghost use Rattle.op_vector.specs.declared.data.Op.{Op};
ghost use Rattle.op_vector.specs.declared.data.VKind.TheVariants.{Mem};
ghost use Rattle.op_vector.specs.Routes.{mem_route};

use op_vector::{Route, VData, VKind, Vop};
use std::alloc::Global;
use std::sync::Arc;
use std::sync::atomic::{AtomicU64, Ordering};
use vfs_tree::Errno;

/// The vector of a memory file system, which counts how often it is asked.
#[derive(Drop)]
pub struct CountingVop {
    /// How often all vectors with this counter were asked.
    pub asked: Arc<AtomicU64, Global>,
}

impl CountingVop {
    fn answer(&self, vd: &VData) -> Route
        ensures { (op : Op) → result ≡ mem_route vd.now op }
    {
        self.asked.fetch_add(1, Ordering::SeqCst);
        match vd {
            VData::Mem { ino, .. } => Route::Here { ino: *ino },
            _ => Route::Refuse {
                errno: Errno::EBADF,
            },
        }
    }
}

impl Vop for CountingVop {
    ghost vkind = { λ _. Mem };

    ghost routes = { λ _ vd op. mem_route vd op };

    fn kind(&self) -> VKind {
        VKind::Mem
    }

    fn lookup(&self, vd: &VData) -> Route {
        self.answer(vd)
    }

    fn open(&self, vd: &VData) -> Route {
        self.answer(vd)
    }

    fn read(&self, vd: &VData) -> Route {
        self.answer(vd)
    }

    fn write(&self, vd: &VData) -> Route {
        self.answer(vd)
    }

    fn getattr(&self, vd: &VData) -> Route {
        self.answer(vd)
    }

    fn readdir(&self, vd: &VData) -> Route {
        self.answer(vd)
    }

    fn readlink(&self, vd: &VData) -> Route {
        self.answer(vd)
    }

    fn create(&self, vd: &VData) -> Route {
        self.answer(vd)
    }

    fn remove(&self, vd: &VData) -> Route {
        self.answer(vd)
    }

    fn rename(&self, vd: &VData) -> Route {
        self.answer(vd)
    }

    fn link(&self, vd: &VData) -> Route {
        self.answer(vd)
    }

    fn truncate(&self, vd: &VData) -> Route {
        self.answer(vd)
    }

    fn inactive(&self, vd: &VData) -> Route {
        self.answer(vd)
    }

    fn reclaim(&self, vd: &VData) -> Route {
        self.answer(vd)
    }
}
