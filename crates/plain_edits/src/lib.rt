//! Edits of the names of one store.
//!
//! Each edit leaves the store that its definition says, whatever the store holds; for want of memory the store is as it
//! was. What is put takes memory before anything is taken away for good, and what was put is taken back without memory.
#![tactic(auto)]

mod edit;
#[cfg(test)]
mod tests;

pub use edit::{Spot, clear_white, link, remove, rename};
