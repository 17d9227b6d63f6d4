//! The core: calls are begun and stepped, and each has its entry in one history.
//!
//! A `Kern` holds a world and the history that leads to it. `begin` makes a call live, and `step` takes it to the next inner
//! entry that it needs (a shadow directory, a copy to an upper layer, the detaching of a mount, a doom) or to its end. A
//! `Job` runs the calls of many callers, each in its caller's order; which caller has the next turn is free. A `Vfs` is a
//! `Kern` that threads share: each has a `Seat`, by which it makes the calls of one caller, a step in each turn.
#![tactic(auto)]

mod advancing;
mod answering;
mod ending;
mod job;
mod kern;
mod ledger;
mod queue;
mod revoking;
mod rooms;
mod seat;
mod turns;
mod vfs;

pub use job::{Job, Turned};
pub use kern::{Kern, Stepped};
pub use seat::Seat;
pub use vfs::Vfs;
