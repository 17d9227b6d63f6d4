//! The plain interpreter: each call changes a `World` in place and answers as `apply` does.
//!
//! It has no vnodes, caches or steps: the paths of a call are walked at once, and what they found decides. What needs
//! memory comes before anything changes, so a call that finds none leaves the world as it was.
#![tactic(auto)]

mod answer;
mod decide;
mod reading;
mod ways;

pub use answer::answer_call;
