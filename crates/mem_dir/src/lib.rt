//! The names of a directory of a memory file system, with what each gives: an inode or a whiteout.
//!
//! Room is reserved before a name is put in, so an insert takes no memory and can't fail. The number of look-ups is
//! counted.
#![tactic(auto)]

mod block;
mod blocks;
mod dir;
#[cfg(test)]
mod tests;

pub use dir::Dir;
