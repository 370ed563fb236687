//! The client of a tenant, without a link: it asks batches of calls, and carries those that are pushed
//! back to it to their end.
#![tactic(auto)]

mod answered;
mod asking;
mod client;
mod known;
mod later;
mod next;
mod programs;
mod stage;
mod turns;

pub use answered::{CallAnswer, CallAnswers};
pub use client::ClientCore;
pub use later::{CallList, Later};
pub use next::Next;
pub use stage::{Awaited, Carried, Stage};
