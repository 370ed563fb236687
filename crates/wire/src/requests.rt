ghost use Rattle.std.specs.Prelude.{◌≡◌, length};

use sp_base::{Asked, Blob, CallNo, ExtNo, Key, Outcome, TableId, TenantId, Writes};
use std::marker::Model;

/// What a client says.
#[derive(Debug, Drop)]
pub enum Request {
    /// Opens the session of a tenant.
    Hello {
        tenant: TenantId,
        key: u64,
    },
    Install {
        text: Blob,
    },
    /// Calls that run together.
    Batch {
        calls: Calls,
    },
    /// Asks for a record that a parked call reads.
    Fetch {
        caller: u32,
        number: CallNo,
        table: TableId,
        key: Key,
    },
    /// How a parked call ended at its client, and what it writes.
    Finish {
        caller: u32,
        number: CallNo,
        outcome: Outcome,
        writes: Writes,
    },
    Put {
        table: TableId,
        key: Key,
        value: Blob,
    },
    TextOf {
        ext: ExtNo,
    },
    Bye,
}

/// The calls of a batch, in order, which contracts see as their list.
#[derive(Debug, Drop)]
pub struct Calls {
    items: Vec<Asked>,
}

impl Model for Calls {
    ghost use Rattle.std.specs.Prelude.{List};
    ghost use Rattle.sp_base.specs.declared.calls.Asked.{Asked};

    ghost Value = { List Asked };

    ghost view = { λ c. c.items.items };
}

impl Calls {
    /// The calls of a vector, which needs no memory.
    pub fn from_vec(items: Vec<Asked>) -> Calls
        ensures { result ≡ items.items }
    {
        Calls { items }
    }

    /// The calls as a vector again, which needs no memory.
    pub fn into_vec(self) -> Vec<Asked>
        ensures { result.items ≡ self }
    {
        let Calls { items } = self;
        items
    }

    pub fn as_slice(&self) -> &[Asked]
        ensures { result.now ≡ self.now }
    {
        self.items.as_slice()
    }

    pub fn len(&self) -> usize
        ensures { result ≡ length self.now }
    {
        self.items.len()
    }
}
