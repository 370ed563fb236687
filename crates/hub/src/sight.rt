//! What a seat at the hub knows. No value of these types but an `Origin` is ever made.
use std::collections::LinkedList;
use std::snapshot::Snapshot;

/// What a hub was founded with: the first value as clauses see it, and the length of its history.
pub struct Origin<B> {
    pub value: Snapshot<B>,
    pub length: u64,
}

impl<B> Drop for Origin<B> {
    fn drop(self) {
        let Self { value, length: _ } = self;
        drop(value);
    }
}

/// Where a seat stands in the line for the turn.
pub enum Role<B> {
    /// The founding seat, before its first look at the length.
    Fresh,
    /// It has no ticket.
    Idle,
    /// It has this ticket, and not the turn.
    Waits(u64),
    /// It has the turn, by this ticket, and found this value in the slot.
    Took(u64, B),
    /// It has the turn, and has looked at the length since.
    Looked(u64),
}

/// The view of one seat, where `E` is an entry of the history.
pub struct Sight<B, E> {
    /// The hub's own, and nothing at a seat that was joined to another.
    pub origin: Option<Origin<B>>,
    /// A history that was seen: what the hub's history begins with.
    pub seen: LinkedList<E>,
    /// What a joined seat had seen, until the next look.
    pub told: LinkedList<E>,
    pub role: Role<B>,
    /// The numbers of the entries that this seat appended, or a seat that was joined to it.
    pub own: LinkedList<u64>,
    /// Whether the load word counts it.
    pub inside: bool,
    /// The load that it shows.
    pub shown: Option<u32>,
    /// The load word after its last step on that word.
    pub met: u64,
}
