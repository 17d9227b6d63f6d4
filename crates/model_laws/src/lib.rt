//! Laws of what a world shows: walks read only names and mounts, each file is one file, directories are linked where
//! their parents name them, and unmounts leave whole what is in use.
//!
//! Each law is the contract of a function without a body's work: who holds the function's contract has the law.
#![tactic(auto)]

mod files;
mod links;
mod unmounts;
mod walks;

pub use files::each_file_is_one_file;
pub use links::a_directory_is_linked_where_its_parent_names_it;
pub use unmounts::{a_forced_unmount_leaves_no_reference, an_unmount_leaves_places_whole};
pub use walks::a_walk_reads_names_and_mounts;
