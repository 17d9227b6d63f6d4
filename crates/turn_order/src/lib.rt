//! The order of turns: numbers that are scattered from a seed, and on whom a turn falls.
#![tactic(auto)]

mod scattering;
#[cfg(test)]
mod tests;

pub use scattering::{mix, pick};
