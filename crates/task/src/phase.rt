use sp_base::{Key, Outcome, TableId, Writes};

/// Where a task stands between its turns.
#[derive(Debug, Drop)]
pub enum Phase {
    /// It may have a turn.
    Ready,
    /// It waits for this record.
    Waiting { table: TableId, key: Key },
    /// Its run has ended.
    Ended { outcome: Outcome, writes: Writes },
}
