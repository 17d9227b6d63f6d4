//! Ordered maps whose keys are numbers or pairs of numbers, which contracts see as finite maps.
//!
//! Both stand over `BTreeMap`, so a look-up, an insert and a removal cost logarithmic time. A model's value can't use
//! a type parameter's order, so each kind of key has a wrapper of its own; the laws between a map's entries and its
//! finite map are stated once, over any order of keys.
#![tactic(auto)]

mod duplicate;
mod number_map;
mod pair_map;
#[cfg(test)]
mod tests;

pub use duplicate::Duplicate;
pub use number_map::NumberMap;
pub use pair_map::PairMap;
