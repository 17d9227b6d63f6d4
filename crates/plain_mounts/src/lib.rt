//! The interpreter's calls on mounts: each takes what its paths found, changes a `World` in place and answers as the model
//! says, or tells why it goes no further and leaves the world as it was.
//!
//! Mounts are made and taken away; a forced unmount and a revocation first doom what is open, one reference after the
//! other, and ask here which is the next.
#![tactic(auto)]

mod first;
mod mount;
mod revoking;
mod unmount;

pub use first::{first_in, first_open};
pub use mount::{mount_mem, mount_null, mount_union};
pub use revoking::revoke;
pub use unmount::{detach_first, doom_next, umount};
