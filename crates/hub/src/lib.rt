//! The hub: one value that keeps a history, taken and given back in turn by any number of threads, and one count of that
//! history for all of them. Whoever takes the value finds all that it had seen before, and what was given back since.
#![tactic(auto)]

mod hub;
mod line;
mod pass;
mod rule;
mod sight;

pub use hub::Hub;
pub use pass::Pass;
pub use sight::{Origin, Role, Sight};
