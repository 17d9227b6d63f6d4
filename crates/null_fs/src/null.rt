ghost use Rattle.std.specs.Prelude.{◌≡◌};
ghost use Rattle.op_vector.specs.declared.data.Op.{Op};
ghost use Rattle.op_vector.specs.declared.data.VKind.TheVariants.{Null};
ghost use Rattle.op_vector.specs.Routes.{null_route};

use op_vector::{Route, VData, VKind, Vop};
use vfs_tree::Errno;

/// The operation vector of the null layer. It passes every operation down to the vnode below, and refuses data of another
/// kind with EBADF.
#[derive(Clone, Copy, Debug)]
pub struct NullVop;

/// The vnode below, or EBADF where the data is of another kind.
fn below(vd: &VData) -> Route
    ensures { (op : Op) → result ≡ null_route vd.now op }
{
    match vd {
        VData::Null { lower, .. } => Route::Down { vid: *lower },
        _ => Route::Refuse {
            errno: Errno::EBADF,
        },
    }
}

impl Vop for NullVop {
    ghost vkind = { λ _. Null };

    ghost routes = { λ _ vd op. null_route vd op };

    fn kind(&self) -> VKind {
        VKind::Null
    }

    fn lookup(&self, vd: &VData) -> Route {
        below(vd)
    }

    fn open(&self, vd: &VData) -> Route {
        below(vd)
    }

    fn read(&self, vd: &VData) -> Route {
        below(vd)
    }

    fn write(&self, vd: &VData) -> Route {
        below(vd)
    }

    fn getattr(&self, vd: &VData) -> Route {
        below(vd)
    }

    fn readdir(&self, vd: &VData) -> Route {
        below(vd)
    }

    fn readlink(&self, vd: &VData) -> Route {
        below(vd)
    }

    fn create(&self, vd: &VData) -> Route {
        below(vd)
    }

    fn remove(&self, vd: &VData) -> Route {
        below(vd)
    }

    fn rename(&self, vd: &VData) -> Route {
        below(vd)
    }

    fn link(&self, vd: &VData) -> Route {
        below(vd)
    }

    fn truncate(&self, vd: &VData) -> Route {
        below(vd)
    }

    fn inactive(&self, vd: &VData) -> Route {
        below(vd)
    }

    fn reclaim(&self, vd: &VData) -> Route {
        below(vd)
    }
}

#[cfg(test)]
mod tests {
    use super::NullVop;
    use op_vector::{BoxedVop, Op, Route, VData, VKind, Vid, ask};
    use std::alloc::AllocError;
    use vfs_tree::Errno;

    #[test]
    fn passes_every_operation_down(rt: HostRuntime) -> Result<(), AllocError> {
        let operations = [
            Op::Lookup,
            Op::Open,
            Op::Read,
            Op::Write,
            Op::Getattr,
            Op::Readdir,
            Op::Readlink,
            Op::Create,
            Op::Remove,
            Op::Rename,
            Op::Link,
            Op::Truncate,
            Op::Inactive,
            Op::Reclaim,
        ];
        let null: BoxedVop = Box::new(rt.alloc(), NullVop)?;
        assert!(rt; null.kind() == VKind::Null);
        let lower = Vid {
            slot: 7,
            generation: 2,
        };
        let refused = Route::Refuse {
            errno: Errno::EBADF,
        };
        for op in operations {
            assert!(rt;
                ask(&null, &VData::Null { mount: 1, lower }, op) == Route::Down { vid: lower }
            );
            assert!(rt; ask(&null, &VData::Mem { mount: 0, ino: 1 }, op) == refused);
            assert!(rt; ask(&null, &VData::Empty, op) == refused);
        }
        Ok(())
    }
}
