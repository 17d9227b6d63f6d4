//! The edges of the program: where a script comes from and where the output goes, each with a count
//! of its faults, the loops that read a whole source and write a whole text, and gates, which hold
//! workers up between their calls.
#![tactic(auto)]

mod gate;
mod memory;
mod sink;
mod source;
mod standard;
#[cfg(test)]
mod tests;
mod whole;

pub use gate::{FlagGate, Gate, MeetGate, OpenGate, Pace};
pub use memory::{MemSink, MemSource, SureSink, SureSource};
pub use sink::{Put, Sink};
pub use source::{Got, Source};
pub use standard::{StdSink, StdSource};
pub use whole::{WholeRead, WholeWrite, read_to_end, write_all};
