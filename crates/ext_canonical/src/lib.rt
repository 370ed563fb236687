//! The canonical text of a program: it spells the program, and no text of the program is shorter.
//!
//! The text is a definition of `ext_mean`. This crate has no code.
#![tactic(auto)]

mod laws;

pub use laws::{canonical_is_short, canonical_is_spelled};
