//! Laws of the edits: what the edits of an entry tell of names, nodes and mounts, and those of a history.
//!
//! Each law is the contract of a function without a body's work: who holds the function's contract has the law.
#![tactic(auto)]

mod folds;
mod histories;
mod names;

pub use folds::{
    calls_without_edits_tell, edits_of_entries_tell_histories, edits_of_inner_entries_tell,
    edits_of_layered_mounts_tell, edits_of_memory_mounts_tell, edits_of_unmounts_tell,
};
pub use histories::edits_of_legal_histories_tell;
pub use names::{
    edits_of_dropped_names_tell, edits_of_made_nodes_tell, edits_of_moved_names_tell,
    edits_of_needed_entries_tell,
};
