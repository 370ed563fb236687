//! The journal: what was put, installed and committed, in one order, and what this says of every
//! moment of the store.
//!
//! `specs/Legal.antt` says what a legal journal is, and `specs/Folds.antt` what a journal leaves.
#![tactic(auto)]

mod bytes_of;
mod entry;
mod journal;
mod laws;
mod size;
mod writing;

pub use bytes_of::entry_bytes;
pub use entry::{Entry, Home};
pub use journal::Journal;
pub use laws::{
    calls_are_as_if_alone, sizes_are_lengths, tenants_are_kept_apart, versions_keep_their_values,
};
pub use size::{entry_size, install_size};
