//! The null layer, as mount_nullfs(8): it shows a subtree at another place by passing each operation down.
#![tactic(auto)]

mod null;

pub use null::NullVop;
