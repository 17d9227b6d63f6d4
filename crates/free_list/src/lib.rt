//! The list of vnodes that may be recycled, as the free list of vnode(9): slot numbers without repeats, which come in at
//! the back, go out at the front, and are taken out of the middle when a vnode gets a hold again.
#![tactic(auto)]

mod list;

pub use list::FreeList;
