//! The play of a script, event by event.
#![tactic(auto)]

mod away;
mod events;
mod laws;
mod queue;
mod queues;
mod sim;
mod turns;

pub use laws::{plays_tell_moved_reads, scripts_have_one_play};
pub use sim::Sim;
