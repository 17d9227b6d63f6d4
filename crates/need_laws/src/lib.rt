//! Laws of what calls need and change: they write above, in upper layers, and what they need changes nothing shown.
//!
//! Each law is the contract of a function without a body's work: who holds the function's contract has the law.
#![tactic(auto)]

mod copying;
mod finding;
mod needing;
mod writing;

pub use copying::older_open_files_read_the_copy;
pub use finding::a_path_finds_what_is_uncut;
pub use needing::{
    calls_need_what_the_upper_layer_lacks, inner_entries_of_histories_change_nothing_shown,
    needed_entries_change_nothing_shown,
};
pub use writing::{
    calls_change_nodes_above, inner_entries_change_nodes_above, open_files_are_written_above,
};
