//! Scripts as text: the calls of many callers, one a line, printed and read.
//!
//! Words stand with one space between them, and lines end with a line feed. Each value has one spelling, so a script
//! that is printed is read again, and a line that is read is printed as it was. The generator makes a script of a
//! number.
#![tactic(auto)]

mod call;
mod cut;
mod fault;
mod flags;
mod generator;
mod keyword;
mod laws;
mod limits;
mod line;
mod number;
mod printing;
mod reading;
mod script;
mod script_printing;
mod word;

pub use fault::ScriptFault;
pub use generator::gen_script;
pub use laws::texts_tell_scripts_apart;
pub use number::put_number;
pub use printing::{put_call, put_line};
pub use reading::read_script;
pub use script::{Lines, Script};
pub use script_printing::print_script;
pub use word::put_word;
