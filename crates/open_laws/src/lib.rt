//! Laws of what is open, and of dooms: open files are kept and keep their bytes, though copies turn them and a forced
//! unmount cuts their mounts off, open directories list what they show, what a live reference stands on outlives it, and
//! a shadow directory in a union that is cut off changes nothing that the union shows.
//!
//! Each law is the contract of a function without a body's work: who holds the function's contract has the law.
#![tactic(auto)]

mod cut;
mod dooms;
mod files;
mod keeping;
mod listing;
mod opens;
mod reading;
mod standing;

pub use cut::{
    a_shadow_directory_in_a_cut_union_changes_nothing_shown, needed_shadows_change_nothing_shown,
};
pub use dooms::{the_deepest_reference_is_doomed_first, what_a_reference_stands_on_outlives_it};
pub use files::{an_open_file_keeps_its_bytes, an_unlinked_file_that_is_open_stays};
pub use keeping::an_open_file_is_kept;
pub use listing::open_directories_list_what_they_show;
pub use opens::a_copy_joins_no_open_files;
pub use reading::a_descriptor_keeps_its_bytes;
pub use standing::{mounts_of_open_files_stand, mounts_of_references_stand};
