//! The output of a run, written as it is made: part after part goes into a buffer, and the buffer to the sink each time it
//! holds 64 KiB or more. So memory never holds the whole text, and what was written is a front of it at any time.
#![tactic(auto)]

mod history;
mod output;
mod piece;
#[cfg(test)]
mod tests;
mod trees;

pub use output::write_output;
