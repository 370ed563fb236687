//! What the code of a program does: exactly what the program means.
#![tactic(auto)]

mod laws;

pub use laws::code_means_the_same;
