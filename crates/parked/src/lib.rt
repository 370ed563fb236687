//! Calls that are handed back to their clients: when a call is pushed, and when what its client sends
//! as its end is taken.
#![tactic(auto)]

mod accepting;
mod finish;
mod placing;
mod refused;
mod shapes;

pub use accepting::accept;
pub use finish::Finish;
pub use placing::place;
pub use refused::Refused;
