//! The text of a history, of the trees of a world, and of a summary of both: what a run prints.
#![tactic(auto)]

mod history;
mod inner;
mod laws;
mod mount;
mod node;
mod output;
mod place;
mod reply;
mod summary;
mod trees;

pub use history::put_entry_line;
pub use laws::{
    parts_make_the_output, same_text_same_history, same_text_same_inner, same_text_same_reply,
};
pub use mount::put_mount;
pub use output::{
    first_line, last_line, print_history, print_output, print_summary, print_trees, trees_line,
};
pub use trees::{given_by, put_shown};
