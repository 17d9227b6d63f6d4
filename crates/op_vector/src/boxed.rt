use crate::data::{Route, VData, VKind};
use crate::vop::Vop;

/// The operation vector of any file system.
pub type BoxedVop = Box<dyn Vop + Send>;

impl Vop for Box<dyn Vop + Send> {
    ghost vkind = { λ b. (Vop-box b).vkind b.value };

    ghost routes = { λ b. (Vop-box b).routes b.value };

    fn kind(&self) -> VKind {
        (**self).kind()
    }

    fn lookup(&self, vd: &VData) -> Route {
        (**self).lookup(vd)
    }

    fn open(&self, vd: &VData) -> Route {
        (**self).open(vd)
    }

    fn read(&self, vd: &VData) -> Route {
        (**self).read(vd)
    }

    fn write(&self, vd: &VData) -> Route {
        (**self).write(vd)
    }

    fn getattr(&self, vd: &VData) -> Route {
        (**self).getattr(vd)
    }

    fn readdir(&self, vd: &VData) -> Route {
        (**self).readdir(vd)
    }

    fn readlink(&self, vd: &VData) -> Route {
        (**self).readlink(vd)
    }

    fn create(&self, vd: &VData) -> Route {
        (**self).create(vd)
    }

    fn remove(&self, vd: &VData) -> Route {
        (**self).remove(vd)
    }

    fn rename(&self, vd: &VData) -> Route {
        (**self).rename(vd)
    }

    fn link(&self, vd: &VData) -> Route {
        (**self).link(vd)
    }

    fn truncate(&self, vd: &VData) -> Route {
        (**self).truncate(vd)
    }

    fn inactive(&self, vd: &VData) -> Route {
        (**self).inactive(vd)
    }

    fn reclaim(&self, vd: &VData) -> Route {
        (**self).reclaim(vd)
    }
}

#[cfg(test)]
mod tests {
    use super::BoxedVop;
    use crate::data::{Op, Route, VData, VKind};
    use crate::rack::Rack;
    use crate::vop::{Vop, ask};
    use std::alloc::{AllocError, Global};

    // A file system of the tests' own: each operation has an inode number for itself.
    #[derive(Drop)]
    struct Numbered;

    impl Vop for Numbered {
        ghost use Rattle.op_vector.specs.declared.data.VKind.TheVariants.{Dead};
        ghost use Rattle.op_vector.specs.declared.data.Op.TheVariants.{Lookup, Open, Read, Write, Getattr, Readdir, Readlink, Create, Remove, Rename, Link, Truncate, Inactive, Reclaim};
        ghost use Rattle.op_vector.specs.declared.data.Route.TheVariants.{Here};

        ghost vkind = { λ _. Dead };

        ghost routes = { λ _ _ op. Here (elim op [ Lookup ↦ 1 | Open ↦ 2 | Read ↦ 3 | Write ↦ 4 | Getattr ↦ 5 | Readdir ↦ 6 | Readlink ↦ 7 | Create ↦ 8 | Remove ↦ 9 | Rename ↦ 10 | Link ↦ 11 | Truncate ↦ 12 | Inactive ↦ 13 | Reclaim ↦ 14 ]) };

        fn kind(&self) -> VKind {
            VKind::Dead
        }

        fn lookup(&self, _vd: &VData) -> Route {
            Route::Here { ino: 1 }
        }

        fn open(&self, _vd: &VData) -> Route {
            Route::Here { ino: 2 }
        }

        fn read(&self, _vd: &VData) -> Route {
            Route::Here { ino: 3 }
        }

        fn write(&self, _vd: &VData) -> Route {
            Route::Here { ino: 4 }
        }

        fn getattr(&self, _vd: &VData) -> Route {
            Route::Here { ino: 5 }
        }

        fn readdir(&self, _vd: &VData) -> Route {
            Route::Here { ino: 6 }
        }

        fn readlink(&self, _vd: &VData) -> Route {
            Route::Here { ino: 7 }
        }

        fn create(&self, _vd: &VData) -> Route {
            Route::Here { ino: 8 }
        }

        fn remove(&self, _vd: &VData) -> Route {
            Route::Here { ino: 9 }
        }

        fn rename(&self, _vd: &VData) -> Route {
            Route::Here { ino: 10 }
        }

        fn link(&self, _vd: &VData) -> Route {
            Route::Here { ino: 11 }
        }

        fn truncate(&self, _vd: &VData) -> Route {
            Route::Here { ino: 12 }
        }

        fn inactive(&self, _vd: &VData) -> Route {
            Route::Here { ino: 13 }
        }

        fn reclaim(&self, _vd: &VData) -> Route {
            Route::Here { ino: 14 }
        }
    }

    #[test]
    fn asks_the_box_by_the_operation(rt: HostRuntime) -> Result<(), AllocError> {
        let boxed: BoxedVop = Box::new(rt.alloc(), Numbered)?;
        let operations = [
            Op::Lookup,
            Op::Open,
            Op::Read,
            Op::Write,
            Op::Getattr,
            Op::Readdir,
            Op::Readlink,
            Op::Create,
            Op::Remove,
            Op::Rename,
            Op::Link,
            Op::Truncate,
            Op::Inactive,
            Op::Reclaim,
        ];
        let mut ino = 0;
        for op in operations {
            ino = if ino < 14 { ino + 1 } else { 0 };
            assert!(rt; ask(&boxed, &VData::Empty, op) == Route::Here { ino });
        }
        Ok(())
    }

    #[test]
    fn a_rack_gives_and_takes_boxes(rt: HostRuntime) -> Result<(), AllocError> {
        let alloc = rt.alloc();
        let boxed: BoxedVop = Box::new(alloc, Numbered)?;
        let dead = Vec::from_array(alloc, [boxed])?;
        let mut rack = Rack::new(Vec::new(alloc), Vec::new(alloc), Vec::new(alloc), dead);
        assert!(rt; rack.is_by_kind());
        assert!(rt; rack.boxes(VKind::Dead).len() == 1);
        assert!(rt; rack.take(VKind::Mem).is_none());
        let Some(taken) = rack.take(VKind::Dead) else {
            return Err(AllocError);
        };
        assert!(rt; taken.kind() == VKind::Dead);
        assert!(rt; rack.take(VKind::Dead).is_none());
        Ok(())
    }
}
