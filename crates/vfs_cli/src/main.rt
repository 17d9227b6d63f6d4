//! Runs a script of file calls from standard input, and writes the history of all calls and the final trees.
//!
//! `run`, `run --seed N` and `run --order` run a script from standard input, the first with a thread for each caller; `gen --seed N --calls K` runs one that it makes and
//! sums it up, and `show --seed N --calls K` shows that one. The exit status says how the run ended.
#![tactic(auto)]

mod plan;
mod running;
mod serial;
#[cfg(test)]
mod tests;
mod together;
mod top;
mod words;
mod worker;
mod writing;

use serial::{Ending, status_of};
use std::process::ExitCode;
use std::{env, io};
use top::vfs_main;
use vfs_flow::{OpenGate, StdSink, StdSource};

/// The exit status of an ending.
fn exit_code(ending: Ending) -> ExitCode {
    ExitCode::from(status_of(ending).code as u8)
}

fn main(rt: HostRuntime) -> ExitCode {
    let alloc = rt.alloc();
    let mut words = Vec::new(alloc);
    match env::args(&rt) {
        Ok(args) => {
            for word in args.skip(1) {
                if words.push(word).is_err() {
                    return exit_code(Ending::NoMemory);
                }
            }
        }
        Err(error) if error.kind() == io::ErrorKind::OutOfMemory => {
            return exit_code(Ending::NoMemory);
        }
        Err(_) => return exit_code(Ending::Usage),
    }
    let mut source = StdSource::new(rt.stdin());
    let mut sink = StdSink::new(rt.stdout());
    let status = vfs_main(&rt, alloc, &words, &mut source, &mut sink, &OpenGate);
    ExitCode::from(status.code as u8)
}
