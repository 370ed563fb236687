//! The nouns that every crate of Splinter shares: numbers of tenants, tables, extensions and calls,
//! byte values and keys, rights, and what a run reads, writes and answers.
#![tactic(auto)]

mod blob;
mod calls;
mod keeps;
mod key;
mod limits;
mod memory;
mod numbers;
mod outcomes;
mod reads;
mod rights;
mod writes;

pub use blob::{Blob, same_bytes};
pub use calls::{Asked, Call, Policy};
pub use keeps::Keeps;
pub use key::{Key, KeyFault};
pub use limits::{
    MOST_ARGUMENTS, MOST_BATCH, MOST_BUDGET, MOST_ENTRIES, MOST_FRAME, MOST_JOURNAL, MOST_KEY,
    MOST_LINES, MOST_PARKED, MOST_PUSHED, MOST_QUANTUM, MOST_READS, MOST_REPLY, MOST_RIGHTS,
    MOST_SCRIPT, MOST_SESSIONS, MOST_TENANTS, MOST_TEXT, MOST_VALUE, MOST_WORKERS, MOST_WRITES,
    READ_UNITS,
};
pub use memory::Memory;
pub use numbers::{CallNo, Caller, ExtNo, TableId, TenantId};
pub use outcomes::{Outcome, Reply, Trap};
pub use reads::{ReadItem, Reads};
pub use rights::{Level, Rights};
pub use writes::{Change, Write, Writes};

#[cfg(test)]
mod tests;
