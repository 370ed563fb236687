use sp_base::{ExtNo, Key, Outcome, ReadItem, TableId};

/// What a read of one record answers.
#[derive(Debug, Drop)]
pub enum Read {
    Found(ReadItem),
    /// The tenant may not read the table.
    Denied,
    Memory,
}

/// How a finished run's commit ended.
#[derive(Debug, Drop)]
pub enum Commit {
    /// Its entry is in the journal, with this number.
    Committed {
        n: u64,
        outcome: Outcome,
    },
    /// The caller has committed this number or a later one. `at` is the journal's length.
    Stale {
        last: u64,
        at: u64,
    },
    /// The version of a record that the run read has moved. It names the first such read.
    Conflict {
        table: TableId,
        key: Key,
        read: u64,
        read_at: u64,
        now: u64,
        now_at: u64,
    },
    /// The journal has no room for the entry. `at` is its length.
    Full {
        at: u64,
    },
    Memory,
}

/// How a put ended.
#[derive(Debug, Drop)]
pub enum Put {
    /// Its entry is in the journal, with this number.
    Done(u64),
    /// The tenant may not write the table.
    Denied,
    /// The journal has no room for the entry. `at` is its length.
    Full { at: u64 },
    Memory,
}

/// How an installation ended.
#[derive(Debug, Drop)]
pub enum Install {
    /// Its entry is in the journal, with this number, and the extension has its own.
    Installed { n: u64, ext: ExtNo },
    /// The journal has no room for the entry. `at` is its length.
    Full { at: u64 },
    Memory,
}
