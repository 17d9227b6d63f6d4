ghost use Rattle.std.specs.Prelude.{◌≡◌};
ghost use Rattle.op_vector.specs.declared.data.VKind.{VKind};
ghost use Rattle.op_vector.specs.declared.data.VData.{VData};
ghost use Rattle.op_vector.specs.declared.data.Route.{Route};
ghost use Rattle.op_vector.specs.declared.data.Op.{Op};
ghost use Rattle.op_vector.specs.declared.data.Op.TheVariants.{Lookup, Open, Read, Write, Getattr, Readdir, Readlink, Create, Remove, Rename, Link, Truncate, Inactive, Reclaim};

use crate::data::{Op, Route, VData, VKind};

/// A file system's operation vector: it answers for a vnode's data where each operation goes on.
///
/// Its meaning is `routes`, which each implementation chooses; its kind is `vkind`.
pub trait Vop: Drop {
    ghost vkind: { Self → VKind };

    ghost routes: { Self → VData → Op → Route };

    /// The kind of the vector.
    fn kind(&self) -> VKind
        ensures { result ≡ vkind self.now };

    /// The route of `Op::Lookup`, as VOP_LOOKUP(9).
    fn lookup(&self, vd: &VData) -> Route
        ensures { result ≡ routes self.now vd.now Lookup };

    /// The route of `Op::Open`, as VOP_OPEN(9).
    fn open(&self, vd: &VData) -> Route
        ensures { result ≡ routes self.now vd.now Open };

    /// The route of `Op::Read`, as VOP_READ(9).
    fn read(&self, vd: &VData) -> Route
        ensures { result ≡ routes self.now vd.now Read };

    /// The route of `Op::Write`, as VOP_WRITE(9).
    fn write(&self, vd: &VData) -> Route
        ensures { result ≡ routes self.now vd.now Write };

    /// The route of `Op::Getattr`, as VOP_GETATTR(9).
    fn getattr(&self, vd: &VData) -> Route
        ensures { result ≡ routes self.now vd.now Getattr };

    /// The route of `Op::Readdir`, as VOP_READDIR(9).
    fn readdir(&self, vd: &VData) -> Route
        ensures { result ≡ routes self.now vd.now Readdir };

    /// The route of `Op::Readlink`, as VOP_READLINK(9).
    fn readlink(&self, vd: &VData) -> Route
        ensures { result ≡ routes self.now vd.now Readlink };

    /// The route of `Op::Create`, as VOP_CREATE(9).
    fn create(&self, vd: &VData) -> Route
        ensures { result ≡ routes self.now vd.now Create };

    /// The route of `Op::Remove`, as VOP_REMOVE(9).
    fn remove(&self, vd: &VData) -> Route
        ensures { result ≡ routes self.now vd.now Remove };

    /// The route of `Op::Rename`, as VOP_RENAME(9).
    fn rename(&self, vd: &VData) -> Route
        ensures { result ≡ routes self.now vd.now Rename };

    /// The route of `Op::Link`, as VOP_LINK(9).
    fn link(&self, vd: &VData) -> Route
        ensures { result ≡ routes self.now vd.now Link };

    /// The route of `Op::Truncate`: a change of the size, as VOP_SETATTR(9) makes it.
    fn truncate(&self, vd: &VData) -> Route
        ensures { result ≡ routes self.now vd.now Truncate };

    /// The route of `Op::Inactive`, as VOP_INACTIVE(9).
    fn inactive(&self, vd: &VData) -> Route
        ensures { result ≡ routes self.now vd.now Inactive };

    /// The route of `Op::Reclaim`, as VOP_RECLAIM(9).
    fn reclaim(&self, vd: &VData) -> Route
        ensures { result ≡ routes self.now vd.now Reclaim };
}

/// Asks the vector by the method of the operation.
pub fn ask<B: Vop>(b: &B, vd: &VData, op: Op) -> Route
    ensures { result ≡ B.routes b.now vd.now op }
{
    match op {
        Op::Lookup => b.lookup(vd),
        Op::Open => b.open(vd),
        Op::Read => b.read(vd),
        Op::Write => b.write(vd),
        Op::Getattr => b.getattr(vd),
        Op::Readdir => b.readdir(vd),
        Op::Readlink => b.readlink(vd),
        Op::Create => b.create(vd),
        Op::Remove => b.remove(vd),
        Op::Rename => b.rename(vd),
        Op::Link => b.link(vd),
        Op::Truncate => b.truncate(vd),
        Op::Inactive => b.inactive(vd),
        Op::Reclaim => b.reclaim(vd),
    }
}
