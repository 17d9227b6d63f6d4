ghost use Rattle.std.specs.Prelude.{◌≡◌};
ghost use Rattle.op_vector.specs.declared.data.VKind.TheVariants.{Union};
ghost use Rattle.op_vector.specs.Routes.{pair_route, union_route, upper_route};

use op_vector::{Route, VData, VKind, Vop};
use vfs_tree::Errno;

/// The operation vector of the union layer.
///
/// A lookup and a listing go to both parts, every other operation to the upper one. A union with one part passes every
/// operation down to it. Data of another kind, and a union without parts, are refused with EBADF.
#[derive(Clone, Copy, Debug)]
pub struct UnionVop;

/// The upper part, or the lower part where there is no upper one.
fn upper_part(vd: &VData) -> Route
    ensures { result ≡ upper_route vd.now }
{
    match vd {
        VData::Union {
            upper: Some(upper),
            ..
        } => Route::Down { vid: *upper },
        VData::Union {
            lower: Some(lower),
            ..
        } => Route::Down { vid: *lower },
        _ => Route::Refuse {
            errno: Errno::EBADF,
        },
    }
}

/// Both parts, or the one that there is.
fn both_parts(vd: &VData) -> Route
    ensures { result ≡ pair_route vd.now }
{
    match vd {
        VData::Union {
            upper: Some(upper),
            lower: Some(lower),
            ..
        } => Route::Pair {
            upper: *upper,
            lower: *lower,
        },
        _ => upper_part(vd),
    }
}

impl Vop for UnionVop {
    ghost vkind = { λ _. Union };

    ghost routes = { λ _ vd op. union_route vd op };

    fn kind(&self) -> VKind {
        VKind::Union
    }

    fn lookup(&self, vd: &VData) -> Route {
        both_parts(vd)
    }

    fn open(&self, vd: &VData) -> Route {
        upper_part(vd)
    }

    fn read(&self, vd: &VData) -> Route {
        upper_part(vd)
    }

    fn write(&self, vd: &VData) -> Route {
        upper_part(vd)
    }

    fn getattr(&self, vd: &VData) -> Route {
        upper_part(vd)
    }

    fn readdir(&self, vd: &VData) -> Route {
        both_parts(vd)
    }

    fn readlink(&self, vd: &VData) -> Route {
        upper_part(vd)
    }

    fn create(&self, vd: &VData) -> Route {
        upper_part(vd)
    }

    fn remove(&self, vd: &VData) -> Route {
        upper_part(vd)
    }

    fn rename(&self, vd: &VData) -> Route {
        upper_part(vd)
    }

    fn link(&self, vd: &VData) -> Route {
        upper_part(vd)
    }

    fn truncate(&self, vd: &VData) -> Route {
        upper_part(vd)
    }

    fn inactive(&self, vd: &VData) -> Route {
        upper_part(vd)
    }

    fn reclaim(&self, vd: &VData) -> Route {
        upper_part(vd)
    }
}

#[cfg(test)]
mod tests {
    use super::UnionVop;
    use op_vector::{BoxedVop, Op, Route, VData, VKind, Vid, ask};
    use std::alloc::AllocError;
    use vfs_tree::Errno;

    fn data(upper: Option<Vid>, lower: Option<Vid>) -> VData {
        VData::Union {
            mount: 2,
            ino: 5,
            upper,
            lower,
            at: 9,
        }
    }

    #[test]
    fn asks_both_parts_or_one(rt: HostRuntime) -> Result<(), AllocError> {
        let upper = Vid {
            slot: 3,
            generation: 1,
        };
        let lower = Vid {
            slot: 8,
            generation: 4,
        };
        let pair = Route::Pair { upper, lower };
        let down = Route::Down { vid: upper };
        let table = [
            (Op::Lookup, pair),
            (Op::Open, down),
            (Op::Read, down),
            (Op::Write, down),
            (Op::Getattr, down),
            (Op::Readdir, pair),
            (Op::Readlink, down),
            (Op::Create, down),
            (Op::Remove, down),
            (Op::Rename, down),
            (Op::Link, down),
            (Op::Truncate, down),
            (Op::Inactive, down),
            (Op::Reclaim, down),
        ];
        let boxed: BoxedVop = Box::new(rt.alloc(), UnionVop)?;
        assert!(rt; boxed.kind() == VKind::Union);
        let refused = Route::Refuse {
            errno: Errno::EBADF,
        };
        for (op, both) in table {
            assert!(rt; ask(&boxed, &data(Some(upper), Some(lower)), op) == both);
            assert!(rt; ask(&boxed, &data(Some(upper), None), op) == Route::Down { vid: upper });
            assert!(rt; ask(&boxed, &data(None, Some(lower)), op) == Route::Down { vid: lower });
            assert!(rt; ask(&boxed, &data(None, None), op) == refused);
            assert!(rt; ask(&boxed, &VData::Null { mount: 2, lower }, op) == refused);
        }
        Ok(())
    }
}
