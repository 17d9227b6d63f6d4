//! Laws of layers: what null mounts and unions show, and what edits through them leave.
//!
//! Each law is the contract of a function without a body's work: who holds the function's contract has the law.
#![tactic(auto)]

mod apart;
mod hidden;
mod lying;
mod names;
mod nulls;
mod shadows;
mod unions;

pub use apart::layers_stay_apart;
pub use hidden::edits_through_a_union_leave_its_lower_layer;
pub use lying::{an_unmount_leaves_layers_whole, layers_lie_over_lower_layers};
pub use names::visible_names_are_those_shown;
pub use nulls::{a_null_mount_shows_its_layer, an_edit_through_a_null_mount_is_that_of_its_layer};
pub use shadows::a_shadow_directory_stands_for_one_that_is_shown;
pub use unions::{a_copy_changes_nothing_shown, a_shadow_directory_changes_nothing_shown};
