//! The limits of the store, each with its unit.

/// The most bytes of a key.
pub const MOST_KEY: usize = 64;

/// The most bytes of a record's value, and of a buffer.
pub const MOST_VALUE: usize = 4096;

/// The most bytes of a call's arguments.
pub const MOST_ARGUMENTS: usize = 1024;

/// The most bytes of a reply.
pub const MOST_REPLY: usize = 4096;

/// The most bytes of an extension's text.
pub const MOST_TEXT: usize = 16_384;

/// The most places that one run writes.
pub const MOST_WRITES: usize = 64;

/// The most units of a call's budget.
pub const MOST_BUDGET: u32 = 100_000;

/// The units of one read of a record.
pub const READ_UNITS: u32 = 16;

/// The most records that one run reads: its budget, by the units of a read.
pub const MOST_READS: usize = 6250;

/// The most units of one turn.
pub const MOST_QUANTUM: u32 = 10_000;

/// The most tenants.
pub const MOST_TENANTS: usize = 1024;

/// The most tables that one tenant may use.
pub const MOST_RIGHTS: usize = 64;

/// The most workers of a script, and the most desks and helpers of a server in all.
pub const MOST_WORKERS: usize = 64;

/// The most calls of one batch.
pub const MOST_BATCH: usize = 64;

/// The most calls of one session that are parked at a time.
pub const MOST_PARKED: usize = 64;

/// The most bytes of a frame behind its length.
pub const MOST_FRAME: u32 = 8_388_608;

/// The most bytes that the reads of a pushed call weigh.
pub const MOST_PUSHED: u64 = 65_536;

/// The most entries of a journal.
pub const MOST_ENTRIES: u64 = 1_048_576;

/// The most bytes that the entries of a journal take.
pub const MOST_JOURNAL: u64 = 268_435_456;

/// The most bytes of a script.
pub const MOST_SCRIPT: u64 = 4_194_304;

/// The most lines of a script.
pub const MOST_LINES: usize = 65_536;

/// The most sessions of one server.
pub const MOST_SESSIONS: u32 = 65_536;
