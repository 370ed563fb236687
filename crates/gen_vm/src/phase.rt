use sp_base::{Key, Outcome, TableId, Writes};

/// Where a run stands between two calls of the machine.
#[derive(Debug, Drop)]
pub enum Phase {
    /// It may go on.
    Ready,
    /// It waits for this record.
    Waiting { table: TableId, key: Key },
    /// It has ended.
    Over { outcome: Outcome, writes: Writes },
}
