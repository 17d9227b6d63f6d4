//! Laws of the calls: what every call and every inner entry does to what is left in a world.
//!
//! Each law is the contract of a function without a body's work: who holds the function's contract has the law.
#![tactic(auto)]

mod edits;
mod fits;
mod kept;
mod lasting;
mod leaving;
mod live;
mod needs;
mod places;
mod prefixes;
mod refusals;
mod revoking;
mod shown;
mod sound;
mod work;

pub use edits::an_entry_makes_few_edits;
pub use fits::{a_leaver_goes_on, a_row_fits};
pub use kept::a_world_keeps_what_is_reached;
pub use lasting::{
    a_call_keeps_worlds_lasting, a_needed_entry_keeps_worlds_lasting,
    legal_histories_keep_worlds_sound,
};
pub use leaving::an_entry_keeps_leavers;
pub use live::{a_doom_leaves_fewer_live, an_entry_adds_no_live};
pub use needs::a_walk_needs_what_is_free;
pub use places::{a_path_finds_a_sound_place, chdir_keeps_worlds_sound};
pub use prefixes::legal_histories_join;
pub use refusals::{only_a_doom_makes_dead, refusals_leave_the_world};
pub use revoking::{
    a_doom_leaves_the_walk_of_a_revoke, a_revoke_dooms_the_first_open_file,
    a_revoke_that_dooms_has_found_a_file, the_first_open_file_is_there,
};
pub use shown::walks_find_what_is_shown;
pub use sound::{a_quiet_call_keeps_worlds_sound, an_entry_keeps_worlds_sound, the_start_is_sound};
pub use work::an_entry_uses_up_work;
