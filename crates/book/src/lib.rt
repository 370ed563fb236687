//! The book: one journal of what was put, installed and committed, and every answer that depends on
//! what came before.
//!
//! Beside its journal the book keeps what the journal leaves: the tables, each tenant's extensions and
//! each caller's last call. Its type keeps these equal to the journal's, so no call walks the journal.
#![tactic(auto)]

mod answers;
mod book;
mod changes;
mod ended;
mod ends;
mod exts;
mod keeps;
mod lasts;
mod laws;
mod notes;
mod reads;

pub use answers::{Commit, Install, Put, Read};
pub use book::Book;
pub use ends::{CallEnd, End};
pub use keeps::BookFixed;
pub use laws::{audited_is_legal, conflicts_name_moved_reads, legal_killed_are_spent};
