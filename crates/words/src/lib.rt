//! The words of the command line: which command they name.
//!
//! `specs/Words.antt` says how the words of each command are written. `specs/Grammar.antt` reads them.
#![tactic(auto)]

mod command;
mod parser;
mod plain;
mod read;

pub use command::Command;
pub use plain::read_plainly;
pub use read::read_words;

#[cfg(test)]
mod tests;
