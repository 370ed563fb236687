use sp_base::{Key, TableId};

/// What a turn did.
#[derive(Debug, Drop)]
pub enum Turned {
    /// The quantum is spent, and the task goes on.
    Ran,
    /// The task waits for this record.
    Wants { table: TableId, key: Key },
    /// The run has ended.
    Ended,
    Memory,
}
