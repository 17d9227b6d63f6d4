//! Laws of what names and mounts show once calls have changed them: a name that is removed shows nothing, one whose
//! whiteout is undeleted what the lower layer has, a directory that is made is empty, one that is moved has nothing of the
//! lower layer below it, and a mount covers what it is on.
//!
//! Each law is the contract of a function without a body's work: who holds the function's contract has the law.
#![tactic(auto)]

mod covering;
mod making;
mod moving;
mod names;

pub use covering::{edits_of_histories_show_sound_views, mounts_cover_what_they_are_on};
pub use making::a_made_directory_is_empty;
pub use moving::a_moved_directory_shows_nothing_below;
pub use names::{a_removed_name_shows_nothing, an_undeleted_name_shows_the_lower_layer};
