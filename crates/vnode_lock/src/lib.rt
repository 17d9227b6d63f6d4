//! The locks of vnodes, as VOP_LOCK(9) takes them: shared or exclusive, all that a call needs in one step or none.
//!
//! A caller that meets a lock in conflict holds none of its own, so that no two callers can wait for one another.
#![tactic(auto)]

mod answer;
mod lock_list;
mod lock_rows;
mod lock_table;

pub use answer::{LockAnswer, Mode};
pub use lock_table::LockTable;

/// How many vnodes the locks of one call name at most.
pub const MOST_LOCKS: usize = 300;
