//! A lock that hands one value out in turns, to passes that know a prefix of its history.
//!
//! The value keeps a list of entries that only grows, fixed data, and for each number a part (`Kept`).
//! Each number belongs to one pass at a time, and only in the turns of that pass does its part change.
//! So a pass knows, from its last turn on, how the list began, and what the parts of its own numbers are.
//!
//! It is a ticket lock. Word 0 is the next ticket, word 1 the ticket that is served, and word 2 the length of the value's list.
//! Slot 0 has the value while it is at home, and `None` while it is out.
//! These are all of its atomic steps, and each is sequentially consistent:
//!
//! | Step | On | Made by | What it does |
//! |---|---|---|---|
//! | draw a ticket | word 0, `compare_exchange` from w to w + 1 | a pass without a ticket | where it succeeds, w is the pass's ticket. At the greatest word none is drawn, and `enter` waits |
//! | load the serving number | word 1, `load` | a pass that doesn't have the value | where the number is the pass's ticket, the pass takes slot 0 in the same step, and has seen the whole list. Without a ticket it learns that what it keeps are beginnings of the list |
//! | count entries | word 2, `fetch_add` | the holder of the value | the new entries, which may be none, enter the shared list, and the parts of the holder's own numbers become the new ones |
//! | pass the turn | word 1, `fetch_add` | the holder of the value | slot 0 is given back, and the ticket is gone |
//! | split a pass | word 0, `load` | a pass without a ticket that has two numbers | the new pass has seen the same, and has one of the numbers |
//! | join two passes | word 0, `load` | two passes without a ticket | one has the numbers of both, the other is spent |
//!
//! Between the load that takes the slot and the passing of the turn, the value moves out of the slot and into it as plain memory, which the holder alone reaches.
//!
//! The rule that each step keeps, in words: the served number is at most the next one. Each number from the served one up to below the next one is the ticket of exactly one pass, and no other ticket is out.
//! The value is at home, or out at the pass whose ticket is served. Word 2 is the length of the list.
//! What a pass has seen is a beginning of that list. Each number is in exactly one pass, and the part that this pass knows of it is the true one.
//! Each pass that isn't spent has a number, and a spent one has neither a number nor a ticket.
//!
//! The order of calls: a pass leaves before it enters again, and holds no turn when it is split, joined or closed; the contracts ask for this.
//! A thread that has a turn should wait for nothing that needs another turn, of this lock or of another: no contract rules such a deadlock out.
//!
//! Not promised: that a turn ever comes, or in which order passes that told each other nothing get theirs.
#![tactic(auto)]

mod kept;
mod lock;
mod pass;
mod plays;
mod steps;
mod view;

pub use kept::Kept;
pub use lock::TurnLock;
pub use pass::Pass;
