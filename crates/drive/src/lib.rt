//! A session over one book on one thread: bytes come in, in whatever pieces, and the frames of the answers
//! go out.
//!
//! `specs/Hearing.antt` says when frames that were heard are answered.
#![tactic(auto)]

mod driving;
mod pushing;
mod running;
mod sendable;

pub use driving::{Driven, drive};
