//! Tests of frames and messages: each limit at its edge, each cut, and bytes written out by hand. They stand
//! above the crates that they test, so that no crate is proved twice.
#![tactic(auto)]

#[cfg(test)]
mod messages;
#[cfg(test)]
mod streams;
