//! Paths and walks: what stands at a path, read from the names and mounts of any view.
//!
//! A walk goes along the components of a path, one at a time, as `namei(9)` does: through the mounts that cover places,
//! up over their roots, and along symbolic links. It reads a `NameView` and nothing else, and keeps no state.
#![tactic(auto)]

mod along;
mod child;
mod crossing;
mod forms;
mod layers;
mod mount_root;
mod named;
mod path;
mod rest;
#[cfg(test)]
mod tests;
mod turn;
mod under;

pub use child::{child_of, low};
pub use crossing::{check_dir, enter, most_steps};
pub use forms::{find, in_cwd, in_place, walk};
pub use layers::{
    base, is_cut, is_dir, is_file, is_linked, kind_of, parent_in, target_of, upper_store,
};
pub use mount_root::{is_root, root};
pub use named::{Walked, walk_view};
pub use path::{PATH_MAX, PathFault, PathText, parse_path};
pub use under::{depth, has_store};
