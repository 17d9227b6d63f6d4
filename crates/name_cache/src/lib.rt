//! The name cache, as namecache(9): what a directory and a name give, or that the directory has no such name.
//!
//! It holds at most 1,024 entries; beyond them the least recently used one goes. What it says is never more than what was
//! entered and not purged; whether that is still so in the file system is for the layer above to keep.
#![tactic(auto)]

mod cache;
mod key;
#[cfg(test)]
mod tests;

pub use cache::{CAPACITY, Cached, NameCache};
