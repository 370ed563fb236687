//! `splinter run` plays the script on its input, and writes the answers and the journal;
//! `splinter check` tells whether its input is an extension that may run, or why it is refused;
//! `splinter drill COUNT SEED` plays a script of its own making, and tells what became of its calls.
#![tactic(auto)]

mod check;
mod counts;
mod drill;
mod play;
mod run;
mod status;
#[cfg(test)]
mod tests;
mod text;
mod top;
mod verdict;

use sp_outside::{StdSink, StdSource};
use status::Status;
use std::alloc::AllocError;
use std::env::Env;
use std::process::ExitCode;
use std::{env, io};
use top::splinter;

fn main(rt: HostRuntime) -> ExitCode {
    let words = match words(&rt) {
        Ok(words) => words,
        Err(error) if error.kind() == io::ErrorKind::OutOfMemory => return exit(Status::Memory),
        Err(_) => return exit(Status::Usage),
    };
    let mut source = StdSource::new(rt.stdin());
    let mut sink = StdSink::new(rt.stdout());
    exit(splinter(&rt, rt.alloc(), words.as_slice(), &mut source, &mut sink))
}

/// The words after the program's name.
fn words(rt: &(impl Env + AllocGlobal)) -> io::Result<Vec<String>> {
    let mut words = Vec::new(rt.alloc());
    for word in env::args(rt)?.skip(1) {
        words.push(word).map_err(AllocError::from)?;
    }
    Ok(words)
}

fn exit(status: Status) -> ExitCode {
    ExitCode::from(status as u8)
}
