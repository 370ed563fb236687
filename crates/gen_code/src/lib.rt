//! The code of an extension: its instructions, what they do on a stack of values, and which code a
//! program has.
#![tactic(auto)]

mod code;
mod op;
mod sound;

pub use code::{Code, CodeFn};
pub use op::Op;
pub use sound::is_sound;
