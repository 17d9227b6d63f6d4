//! Laws of outputs: which history an output is that of.
//!
//! Each law is the contract of a function without a body's work: who holds the function's contract has the law.
#![tactic(auto)]

mod bounds;
mod outputs;

pub use bounds::legal_histories_are_bounded;
pub use outputs::{outputs_have_one_history, same_output_same_history};
