//! Times the names of one directory of a memory file system: `name_bench NAMES ROUNDS`.
//!
//! In each round every name is made in the root directory, in a scattered order, as a hard link of one file; then each is
//! looked up, and then each is removed. The program prints how many look-ups found the file.
#![tactic(auto)]

ghost use Rattle.std.specs.Prelude.{◌≤◌, IfSome};

mod fault;
mod rounds;
#[cfg(test)]
mod tests;
mod words;

use fault::Fault;
use rounds::run;
use std::env;
use std::process::ExitCode;
use words::{Size, size_of};

/// What the words after the program's name say.
fn size_of_args(rt: &HostRuntime) -> Option<Size>
    ensures { IfSome result (λ size. size.names ≤ 100000) }
{
    let mut words = Vec::new(rt.alloc());
    let Ok(args) = env::args(rt) else {
        return None;
    };
    for word in args.skip(1) {
        if words.push(word).is_err() {
            return None;
        }
    }
    size_of(words.as_slice())
}

fn main(rt: HostRuntime) -> ExitCode {
    let Some(size) = size_of_args(&rt) else {
        let _ = eprintln!(rt; "usage: name_bench NAMES ROUNDS, with 1 to 100000 names");
        return ExitCode::from(64);
    };
    let names = size.names;
    let rounds = size.rounds;
    match run(rt.alloc(), names, rounds) {
        Ok(found) => match println!(rt; "{names} names, {rounds} rounds, {found} found") {
            Ok(()) => ExitCode::SUCCESS,
            Err(_) => ExitCode::from(74),
        },
        Err(fault) => {
            let _ = eprintln!(rt; "name_bench: {fault}");
            ExitCode::from(71)
        }
    }
}
