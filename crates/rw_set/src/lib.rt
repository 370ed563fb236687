//! What a call has read: its reads in order, and the run that has ended on them.
#![tactic(auto)]

mod finished;
mod read_set;
mod search;
mod sent;
mod weight;

pub use finished::Finished;
pub use read_set::ReadSet;
pub use sent::Sent;
