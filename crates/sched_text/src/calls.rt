use crate::rows::Rows;
use sp_base::{Asked, Blob, Key, TableId};

/// One item of a script of calls.
#[derive(Debug, Drop)]
pub enum CallItem {
    /// The text of an extension is to be installed.
    Install {
        text: Blob,
    },
    Put {
        table: TableId,
        key: Key,
        value: Blob,
    },
    /// Calls that go together, each with the number of its line.
    Batch {
        calls: Rows<(u32, Asked)>,
    },
}

/// A script of calls: what a client asks of a server.
#[derive(Debug, Drop)]
pub struct CallScript {
    /// Each item with the number of its line.
    pub items: Rows<(u32, CallItem)>,
}
