//! The union layer, as mount_unionfs(8): it shows an upper and a lower directory as one. A name of the upper layer hides
//! that name of the lower layer, and so does a whiteout in the upper layer.
#![tactic(auto)]

mod listing;
mod union_vop;

pub use listing::{is_in_order, merge};
pub use union_vop::UnionVop;
