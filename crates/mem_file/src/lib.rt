//! The contents of a regular file of a memory file system: bytes in pages of a fixed size.
//!
//! Room is reserved before it is written to, so a write and a change of the length take no memory and can't fail.
#![tactic(auto)]

mod file;
mod page;
mod pages;
#[cfg(test)]
mod tests;

pub use file::MemFile;
