//! The memory file system: the nodes of one store, with the names of its directories in blocks of records and the bytes
//! of its files in pages.
//!
//! Contracts see a `vfs_tree::Store`, and each edit of names is the edit of a store that its definition there says. What
//! takes memory is done before anything changes, so for want of memory the store is as it was.
#![tactic(auto)]

#[cfg(test)]
mod callers;
mod checks;
mod entries;
mod fs;
#[cfg(test)]
mod hundred_edits;
mod inode;
mod nodes;
#[cfg(test)]
mod tests;
mod vop;

pub use checks::{gives_bare, is_dir, is_no_dir};
pub use entries::{is_given, is_white};
pub use fs::MemFs;
pub use inode::NewNode;
pub use vop::MemVop;
