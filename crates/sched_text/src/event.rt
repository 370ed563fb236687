use sp_base::{Asked, Blob, Key, TableId, TenantId};

/// What a body line of a script lets happen.
#[derive(Debug, Drop)]
pub enum Event {
    Put {
        tenant: TenantId,
        table: TableId,
        key: Key,
        value: Blob,
    },
    /// The text of an extension is to be installed.
    Ext {
        tenant: TenantId,
        text: Blob,
    },
    /// A call joins the queue of a worker.
    Begin {
        worker: u32,
        tenant: TenantId,
        asked: Asked,
    },
    /// A worker goes on with the first call of its queue, for this many units.
    Turn {
        worker: u32,
        quantum: u32,
    },
    /// The first call of the queue of `from` moves to the queue of `worker`.
    Steal {
        worker: u32,
        from: u32,
    },
    /// A caller's pushed call goes on at its client.
    Away {
        tenant: TenantId,
        caller: u32,
    },
    /// A caller's pushed call is forgotten.
    Cut {
        tenant: TenantId,
        caller: u32,
    },
}
