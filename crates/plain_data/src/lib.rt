//! The interpreter's calls on descriptors and on contents: each takes what its path found, changes a `World` in place and
//! answers as the model says, or tells why it goes no further and leaves the world as it was.
#![tactic(auto)]

mod descriptors;
mod known;
mod length;
mod listing;
mod opening;
mod reading;
mod room;
mod seek;
mod writing;

pub use descriptors::{close, descriptor, fchdir};
pub use known::fstat;
pub use length::{ftruncate, resize_at, truncate};
pub use listing::readdir;
pub use opening::open;
pub use reading::{pread, read};
pub use room::Room;
pub use seek::lseek;
pub use writing::{pwrite, write};
