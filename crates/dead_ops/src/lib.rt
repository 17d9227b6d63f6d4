//! The dead file system, after FreeBSD's dead vector: a vnode goes over to it when it is reclaimed while it is still
//! referenced, and every operation on it is refused from then on.
#![tactic(auto)]

mod dead;

pub use dead::DeadVop;
