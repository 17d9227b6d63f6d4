//! The calls, what they answer, and which histories of them are legal.
//!
//! `apply` says what a call answers in a world, and the world that it leaves; it is the whole meaning of the file
//! system. A `History` holds the calls of all callers with their answers, and between them the inner entries that a
//! call needs before it can be answered. A history is legal where each answer is that of `apply` in the world that the
//! entries before it leave.
#![tactic(auto)]

mod call;
mod entry;
mod history;
mod laws;
mod reply;
mod target;
#[cfg(test)]
mod tests;

pub use call::{Access, Call, Flags, Line, Whence};
pub use entry::{Entry, Inner, Ref};
pub use history::History;
pub use laws::legal_histories_grow;
pub use reply::{MountWord, Reply};
pub use target::Target;
