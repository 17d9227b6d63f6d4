//! What the inner entries of a history do to a world, in place.
//!
//! Each leaves the world that its definition says; for want of memory the world is as it was. What takes memory comes
//! first, and what is changed in many places after it takes none.
#![tactic(auto)]

mod copy_up;
mod detach;
mod dooms;
mod effect;
mod entries;
mod shadow;
mod turn;
mod upper;

pub use dooms::doom;
pub use effect::make_effect;
