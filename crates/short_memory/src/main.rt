//! Plays dialogues with a session in which a client ends a call that was handed back to it and asks on, and judges what is said.
//! Where an allocation fails, each answer must still be one that docs/PROTOCOL.md allows.
//!
//! It reads a number, makes so many allocations first, and prints what became of the dialogues. Whoever makes the same allocation fail
//! in each run thus finds every allocation of a dialogue by counting that number down.
#![tactic(auto)]

mod bench;
mod dialogue;
mod frames;
mod thought;

use dialogue::{Judged, play};
use frames::Ask;
use sp_base::Memory;
use std::alloc::Global;
use std::process::ExitCode;

/// What the client asks behind its end, in each dialogue.
const ORDERS: [[Ask; 3]; 3] = [
    [Ask::End, Ask::Fetch, Ask::Invoke],
    [Ask::Fetch, Ask::Invoke, Ask::End],
    [Ask::Invoke, Ask::End, Ask::Fetch],
];

/// Makes so many allocations, and plays the dialogues up to one that does not go as written.
fn played(alloc: Global, before: u32) -> Result<Judged, Memory> {
    for _made in 0..before {
        let _ = Vec::from_slice(alloc, &[0u8])?;
    }
    for order in ORDERS {
        match play(alloc, order) {
            Judged::AsWritten => (),
            judged => return Ok(judged),
        }
    }
    Ok(Judged::AsWritten)
}

fn told(judged: Judged) -> &'static str {
    match judged {
        Judged::AsWritten => "as written",
        Judged::Short => "memory was short",
        Judged::Parked => "memory was short, and the call stayed parked",
        Judged::Gone => "memory was short, and the call was gone",
        Judged::Wrong => "a wrong answer",
    }
}

fn main(rt: HostRuntime) -> ExitCode {
    let before = match rt.lines(rt.alloc()).next() {
        Some(Ok(line)) => line.parse().unwrap_or(0),
        _ => 0,
    };
    let judged = played(rt.alloc(), before).unwrap_or(Judged::Short);
    match println!(rt; "{}", told(judged)) {
        Ok(()) => ExitCode::SUCCESS,
        Err(_) => ExitCode::FAILURE,
    }
}
