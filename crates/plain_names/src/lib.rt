//! The interpreter's calls on names: each takes what its paths found, changes a `World` in place and answers as the model
//! says, or tells why it goes no further and leaves the world as it was.
#![tactic(auto)]

mod dirs;
mod empty;
mod files;
mod known;
mod renaming;

pub use dirs::{chdir, mkdir, rmdir, set_cwd};
pub use empty::check_empty;
pub use files::{link, readlink, symlink, undelete, unlink};
pub use known::{stat, stat_of, statfs};
pub use renaming::rename;
