use sp_base::{Key, TableId};

/// Where a run paused.
#[derive(Debug, Drop)]
pub enum Paused {
    /// It waits for this record, whose 16 units are charged.
    Wants { table: TableId, key: Key },
    /// The next charge passes the limit.
    Out,
    /// It has ended.
    Ended,
    /// There was no memory for the next instruction, which is not done.
    Memory,
}
