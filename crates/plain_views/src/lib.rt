//! What a world shows at its mounts: what refers to a mount, and the names that a directory shows.
#![tactic(auto)]

mod carriers;
mod hidden;
mod listing;
mod references;
mod shown;

pub use carriers::{is_below, is_busy};
pub use listing::{has_visible, visible};
pub use references::{
    has_references, is_covered, is_cwd_in, is_mounted_in, is_of, is_open_in, stands_on,
};
