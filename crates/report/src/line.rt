use ext_mean::Refusal;
use sp_base::{CallNo, Caller, ExtNo, Key, Outcome, TableId};

/// What an answer line begins with: the number of its line in the script, or the word of the drain.
#[derive(Clone, Copy, Debug, PartialEq, Eq)]
pub enum Prefix {
    At(u32),
    Drain,
}

/// What an answer line says.
#[derive(Debug, Drop)]
pub enum Line {
    /// A record was put, and its entry has this number.
    Put {
        n: u64,
    },
    /// The tenant may not write the table.
    Denied,
    /// The journal has no room.
    Full,
    /// An extension was installed: the number of its entry, and its own.
    Installed {
        n: u64,
        ext: ExtNo,
    },
    /// An extension was refused: the line of its first fault, and why.
    Rejected {
        line: u32,
        code: Refusal,
    },
    /// A peer found no memory.
    Memory,
    /// There was nothing to act on.
    Idle,
    /// What happened to a call, and whether it was answered away from the server.
    Of {
        caller: Caller,
        number: CallNo,
        said: Said,
        away: bool,
    },
}

/// What happened to a call.
#[derive(Debug, Drop)]
pub enum Said {
    Queued,
    /// The caller has a live call, of this number.
    Busy {
        number: CallNo,
    },
    /// The tenant has only so many extensions.
    NoExtension {
        count: u32,
    },
    /// It read a record of this version, and was then pushed to its client or not.
    Read {
        table: TableId,
        key: Key,
        version: u64,
        pushed: bool,
    },
    /// Its turn ended, and it has spent so many units.
    On {
        spent: u32,
        pushed: bool,
    },
    Committed {
        n: u64,
        outcome: Outcome,
    },
    /// The caller has committed this number or a later one.
    Stale {
        last: u64,
    },
    /// A record that it read has moved from one version to another.
    Conflict {
        table: TableId,
        key: Key,
        read: u64,
        now: u64,
    },
    /// The journal has no room.
    Full,
    /// It was moved to another worker's queue.
    Moved,
    /// It was pushed to its client, and forgotten there.
    Cut,
    /// The caller stands earlier in its batch.
    Repeated,
    BadBudget,
    /// The client sent a change of a table that its tenant may not write.
    Foreign {
        table: TableId,
    },
    /// The client sent changes that no run makes, of this kind.
    Shape {
        code: u8,
    },
    /// The client sent what its program does not mean.
    Lied,
    NotParked,
    /// A peer found no memory.
    Memory,
}
