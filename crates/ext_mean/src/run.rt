use sp_base::{Key, Reply, TableId, Trap, Writes};

/// How a run stands: ended, or in want of a record that its view does not know.
#[derive(Debug, Drop)]
pub enum Run {
    /// It came to its end, with its reply and its changes, and used so many units.
    Done {
        reply: Reply,
        writes: Writes,
        used: u32,
    },
    /// A test of the language ended it after so many units.
    Trapped {
        trap: Trap,
        used: u32,
    },
    /// A charge did not fit the budget.
    Spent,
    /// It wants this record, whose 16 units are among the units used.
    Wants {
        table: TableId,
        key: Key,
        used: u32,
    },
}
