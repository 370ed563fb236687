//! What a book keeps under a lock: it stands for its journal, and its grants, limit and audit never change.

use crate::book::Book;
use journal::Entry;
use records::Grants;
use sp_base::Keeps;

/// The part of a book that never changes, as plain data.
#[derive(Drop)]
pub struct BookFixed {
    pub grants: Grants,
    /// The most entries of the journal.
    pub limit: u64,
    /// Whether calls that ended at their clients are audited.
    pub audit: bool,
}

impl Keeps for Book {
    ghost use Rattle.book.specs.Standing.{StandsFor};

    type Entry = Entry;

    type Fixed = BookFixed;

    ghost stands_for = { λ book entries. StandsFor book entries };

    ghost fixed = { λ book. record { grants = book.grants; limit = book.limit; audit = book.audit } };

    fn length(&self) -> u64 {
        self.len()
    }
}
