//! Which texts are extensions that may run: those that spell a program that passes both checks.
#![tactic(auto)]

mod check;
mod fault;
mod laws;

pub use check::check_text;
pub use fault::CheckFault;
pub use laws::{every_text_is_judged, refused_are_not_accepted, texts_have_one_refusal};
