//! Worked calls: what single calls answer in small worlds, by the definitions.
//!
//! Each is the contract of a function without a body's work. The worlds are written out in `specs/Worlds.antt`.
#![tactic(auto)]

mod files;
mod mounts;
mod names;
mod numbers;
mod unions;

pub use files::{
    a_doomed_file_can_only_be_closed, a_file_has_a_greatest_size, a_gap_is_zeros,
    a_revoke_dooms_the_open_file, reading_moves_the_offset,
};
pub use mounts::{
    a_forced_unmount_dooms_the_deeper_reference_first, a_memory_file_system_is_mounted,
    a_null_layer_keeps_its_mount_busy, a_union_is_mounted_on_its_lower_layer,
};
pub use names::{
    a_directory_does_not_go_below_itself, a_directory_has_no_second_name, a_directory_is_made_once,
    a_link_to_itself_is_followed_no_further, a_missing_name_is_absent,
};
pub use numbers::{
    no_mount_without_a_number, no_node_without_a_number, nothing_is_made_above_without_a_number,
};
pub use unions::{
    a_directory_of_the_lower_layer_needs_a_shadow, a_directory_that_is_made_again_is_opaque,
    a_whiteout_hides_the_lower_name, a_writer_copies_the_file_up,
};
