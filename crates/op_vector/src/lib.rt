//! The operation vectors of vnodes, as VOP_*(9) of FreeBSD has them, and the rack of the vectors that are not in use.
//!
//! A caller of a vnode does not know its file system: it asks the vnode's vector, a box of the trait `Vop`, where an
//! operation goes on. Each file system implements `Vop`, and contracts know an implementation by its `routes`.
#![tactic(auto)]

mod boxed;
mod data;
mod rack;
mod shelf;
mod vop;

pub use boxed::BoxedVop;
pub use data::{Op, Route, VData, VKind, Vid};
pub use rack::{Rack, RackOf};
pub use shelf::Shelf;
pub use vop::{Vop, ask};
