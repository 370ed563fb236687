//! The calls of a script that were pushed back to their clients, each at its client.
#![tactic(auto)]

mod callers;
mod copies;
mod plain;
mod pushed_call;
mod pushed_calls;

pub use callers::Callers;
pub use plain::PlainPushedCall;
pub use pushed_call::PushedCall;
pub use pushed_calls::PushedCalls;
