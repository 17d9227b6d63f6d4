//! The mounts of a file tree by their numbers: which of them covers a place, which stands on which, and which are being
//! left by a forced unmount, as mount(8) and umount(8) keep them.
#![tactic(auto)]

mod fault;
mod seat;
mod table;

pub use fault::AddFault;
pub use table::MountTable;
