//! A list of numbers in a hub, with threads that append to it in turn, and tests of the hub over it.
#![tactic(auto)]

pub mod numbers;
#[cfg(test)]
mod tests;
pub mod workers;
