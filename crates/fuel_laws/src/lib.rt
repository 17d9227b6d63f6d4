//! Laws of the model: the steps by which its definitions recurse are enough, and what callers keep of what is theirs.
//!
//! Each law is the contract of a function without a body's work: who holds the function's contract has the law.
#![tactic(auto)]

mod children;
mod fuel;
mod layered;
mod listing;
mod opening;
mod others;
mod pending;
mod standing;
mod walking;

pub use children::{
    children_are_found_whole, lower_parts_are_found_whole, null_mounts_show_their_layers,
    trees_are_shown_whole, what_is_found_is_falling,
};
pub use fuel::{layers_are_counted_whole, walks_pass_all_mounts};
pub use layered::mounts_stay_layered;
pub use listing::visible_names_are_whole;
pub use opening::open_answers_the_lowest_descriptor;
pub use others::{
    a_call_keeps_what_is_open, a_doom_keeps_current_directories, dooms_count_for_their_caller,
    inner_entries_keep_open_files, others_keep_a_current_directory, others_keep_what_is_theirs,
};
pub use pending::{an_entry_ends_its_own_call, histories_keep_each_callers_calls};
pub use standing::{a_directory_is_below_all_above_it, a_mount_stands_on_all_below_it};
pub use walking::{a_walk_needs_its_links_and_components, more_steps_find_the_same};
