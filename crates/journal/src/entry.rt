use sp_base::{Blob, Call, Key, Outcome, Reads, TableId, TenantId, Writes};

/// Where the turns of a committed call ended: in the server, or at the client it was pushed to.
#[derive(Clone, Copy, Debug, PartialEq, Eq)]
pub enum Home {
    Server,
    Client,
}

/// One entry of the journal.
#[derive(Debug, Drop)]
pub enum Entry {
    /// A committed call. Of a read the entry keeps its place and version, and no value.
    Invoke {
        call: Call,
        outcome: Outcome,
        writes: Writes,
        reads: Reads,
        home: Home,
    },
    /// A record that a tenant put without an extension.
    Put {
        tenant: TenantId,
        table: TableId,
        key: Key,
        value: Blob,
    },
    /// An extension that a tenant installed.
    Install {
        tenant: TenantId,
        text: Blob,
    },
}
