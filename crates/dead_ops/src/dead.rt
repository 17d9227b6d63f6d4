ghost use Rattle.op_vector.specs.declared.data.VKind.TheVariants.{Dead};
ghost use Rattle.op_vector.specs.Routes.{dead_route};

use op_vector::{Route, VData, VKind, Vop};
use vfs_tree::Errno;

/// The operation vector of the dead file system. It refuses every operation, whatever the vnode's data is.
#[derive(Clone, Copy, Debug)]
pub struct DeadVop;

impl Vop for DeadVop {
    ghost vkind = { λ _. Dead };

    ghost routes = { λ _ vd op. dead_route vd op };

    fn kind(&self) -> VKind {
        VKind::Dead
    }

    fn lookup(&self, _vd: &VData) -> Route {
        Route::Refuse {
            errno: Errno::ENOTDIR,
        }
    }

    fn open(&self, _vd: &VData) -> Route {
        Route::Refuse {
            errno: Errno::ENXIO,
        }
    }

    fn read(&self, _vd: &VData) -> Route {
        Route::Refuse { errno: Errno::EIO }
    }

    fn write(&self, _vd: &VData) -> Route {
        Route::Refuse { errno: Errno::EIO }
    }

    fn getattr(&self, _vd: &VData) -> Route {
        Route::Refuse {
            errno: Errno::EBADF,
        }
    }

    fn readdir(&self, _vd: &VData) -> Route {
        Route::Refuse {
            errno: Errno::EBADF,
        }
    }

    fn readlink(&self, _vd: &VData) -> Route {
        Route::Refuse {
            errno: Errno::EBADF,
        }
    }

    fn create(&self, _vd: &VData) -> Route {
        Route::Refuse {
            errno: Errno::ENOTDIR,
        }
    }

    fn remove(&self, _vd: &VData) -> Route {
        Route::Refuse {
            errno: Errno::ENOTDIR,
        }
    }

    fn rename(&self, _vd: &VData) -> Route {
        Route::Refuse {
            errno: Errno::ENOTDIR,
        }
    }

    fn link(&self, _vd: &VData) -> Route {
        Route::Refuse {
            errno: Errno::ENOTDIR,
        }
    }

    fn truncate(&self, _vd: &VData) -> Route {
        Route::Refuse {
            errno: Errno::EBADF,
        }
    }

    fn inactive(&self, _vd: &VData) -> Route {
        Route::Refuse {
            errno: Errno::EBADF,
        }
    }

    fn reclaim(&self, _vd: &VData) -> Route {
        Route::Refuse {
            errno: Errno::EBADF,
        }
    }
}

#[cfg(test)]
mod tests {
    use super::DeadVop;
    use op_vector::{BoxedVop, Op, Route, VData, VKind, ask};
    use std::alloc::AllocError;
    use vfs_tree::Errno;

    #[test]
    fn refuses_every_operation(rt: HostRuntime) -> Result<(), AllocError> {
        let table = [
            (Op::Lookup, Errno::ENOTDIR),
            (Op::Open, Errno::ENXIO),
            (Op::Read, Errno::EIO),
            (Op::Write, Errno::EIO),
            (Op::Getattr, Errno::EBADF),
            (Op::Readdir, Errno::EBADF),
            (Op::Readlink, Errno::EBADF),
            (Op::Create, Errno::ENOTDIR),
            (Op::Remove, Errno::ENOTDIR),
            (Op::Rename, Errno::ENOTDIR),
            (Op::Link, Errno::ENOTDIR),
            (Op::Truncate, Errno::EBADF),
            (Op::Inactive, Errno::EBADF),
            (Op::Reclaim, Errno::EBADF),
        ];
        let dead: BoxedVop = Box::new(rt.alloc(), DeadVop)?;
        assert!(rt; dead.kind() == VKind::Dead);
        for (op, errno) in table {
            assert!(rt;
                ask(&dead, &VData::Mem { mount: 0, ino: 1 }, op) == Route::Refuse { errno }
            );
            assert!(rt; ask(&dead, &VData::Empty, op) == Route::Refuse { errno });
        }
        Ok(())
    }
}
