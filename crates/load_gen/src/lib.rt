//! The script of a drill: calls that count on a few keys, pushed every other time.
#![tactic(auto)]

mod drill;

pub use drill::{MOST_CALLS, script_of};

#[cfg(test)]
mod tests;
