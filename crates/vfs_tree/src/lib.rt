//! Plain trees, mounts and places: the data that every layer above speaks of.
//!
//! A `World` is one file tree with its mounts: the stores of its memory file systems, the mounts, the open files and
//! the current directories. It has no vnodes, counts, locks or caches; those are the business of the layers that stand
//! for a world, and their contracts say which.
#![tactic(auto)]

mod bytes;
mod counted_store;
mod covering;
mod errno;
mod limits;
mod links;
mod mount;
mod name;
mod name_counts;
mod name_map;
mod node;
mod node_edits;
mod open;
mod place;
mod store_edits;
#[cfg(test)]
mod tests;
mod view;
mod walk;
mod world;
mod world_view;

pub use bytes::{ByteBuffer, Bytes};
pub use counted_store::CountedStore;
pub use errno::{Errno, errno_number, errno_text};
pub use limits::Limits;
pub use mount::{Mount, MountKind};
pub use name::{Name, NameFault, NameList};
pub use name_map::NameMap;
pub use node::{Kind, NameEntry, Node, Store};
pub use open::{Cwd, Mode, Open};
pub use place::{Place, View};
pub use std::alloc::AllocError as NoMemory;
pub use store_edits::Taken;
pub use view::{DirFacts, NameView};
pub use walk::{Child, Component, Found, Leaf, Need, NodeId, Step};
pub use world::World;
