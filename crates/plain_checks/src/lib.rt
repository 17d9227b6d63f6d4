//! What the calls of the interpreter share: how far a call came, what its paths found, and the edits of a world through a
//! place.
#![tactic(auto)]

mod answer;
mod edits;
mod found;
mod stop;

pub use answer::Answer;
pub use edits::{clear_at, drop_at, has_white, is_in_union, link_at, make_at, rename_at};
pub use found::{copied, dir_at, free_target, mount_at, need_shadow, place_at, target_at, there};
pub use stop::{Stop, made};
