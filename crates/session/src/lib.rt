//! Sessions: one client's requests, each with its one answer, and what of the journal accounts for it.
//!
//! `specs/Steps.antt` says which answers are explained, one rule a row, and `specs/States.antt` what a session
//! has come to between two of them. A session takes no turn itself: the calls of a batch are handed out as tasks, and
//! their ends come back.
#![tactic(auto)]

mod answering;
mod batch;
mod conf;
mod ending;
mod fault;
mod laws;
mod parked_calls;
mod parking;
mod plan;
mod session;
mod told;

pub use conf::SessionConf;
pub use fault::Fault;
pub use laws::longer_journals_explain_as_much;
pub use plan::{Ask, Begun, Plan};
pub use session::Session;
