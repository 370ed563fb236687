//! One line of a script of calls, as it reads alone.

use sp_base::{Asked, Blob, Key, TableId};

/// The first field of a line.
#[derive(Clone, Copy, Debug, PartialEq, Eq)]
pub enum CallWord {
    Install,
    Put,
    Batch,
    Invoke,
}

/// What a line of a script of calls says.
#[derive(Debug, Drop)]
pub enum CallLine {
    /// A text of so many lines follows.
    Install(u32),
    Put {
        table: TableId,
        key: Key,
        value: Blob,
    },
    /// So many calls follow, which go together.
    Batch(u32),
    Invoke(Asked),
}
