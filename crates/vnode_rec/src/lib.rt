//! The vnodes of an active file system: slots with operation vectors, data and generations, the rows of those who hold
//! them, with use counts and hold counts as vnode(9) has them, and the list of vnodes that may be recycled.
#![tactic(auto)]

mod chains;
mod holders;
mod row;
mod slot;
mod table;

pub use slot::Slot;
pub use table::{Fell, VnodeTable, VnodeTableOf};
