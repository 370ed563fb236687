//! Frames out of a stream of bytes, in whatever pieces it comes.
#![tactic(auto)]

mod cutting;
mod framer;

pub use framer::{FrameFault, Framer, framed_is_given, one_reading};
