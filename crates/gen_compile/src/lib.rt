//! The compiler: an extension's tree becomes its code, in one pass over the tree. A jump forward is
//! written once its goal is known, into a place that was kept for it.
#![tactic(auto)]

mod blocks;
mod compiling;
mod laws;
mod names;
mod numbers;
mod statements;
mod values;
mod variables;

pub use compiling::compile;
pub use laws::code_is_sound;
