//! New vnodes, as getnewvnode(9) makes them: in an empty slot of the vnode table, or in the slot of the vnode that has been
//! free for the longest time. A vnode that a row holds is never recycled.
#![tactic(auto)]

mod recycle;
#[cfg(test)]
mod tests;
#[cfg(test)]
mod vectors;

pub use recycle::new_vnode;
