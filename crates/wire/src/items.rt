ghost use Rattle.std.specs.Prelude.{◌≡◌, length};

use sp_base::{CallNo, Key, Outcome, Reads, TableId};
use std::marker::Model;

/// How a call of a batch ended.
#[derive(Debug, Drop)]
pub enum Item {
    /// Entry `n` of the journal.
    Committed {
        n: u64,
        outcome: Outcome,
    },
    /// The caller's last number was `last`.
    Stale {
        last: u64,
        at: u64,
    },
    /// A record that was read at one version has another now.
    Conflict {
        table: TableId,
        key: Key,
        read: u64,
        read_at: u64,
        now: u64,
        now_at: u64,
    },
    /// The call goes on at its client, with the records it read.
    Pushed {
        load: u32,
        spent: u32,
        reads: Reads,
    },
    Full {
        at: u64,
    },
    /// Another call of the caller is parked.
    Busy {
        number: CallNo,
    },
    /// The caller stands earlier in the batch.
    Repeated,
    NoExtension {
        count: u32,
        at: u64,
    },
    BadBudget,
    Memory,
    /// A write to a table that the tenant may not write.
    Foreign {
        table: TableId,
    },
    /// Writes of no allowed shape.
    Shape {
        code: u8,
    },
    /// Another outcome than the records mean.
    Lied,
    NotParked,
}

/// The items of an answer, in order, which contracts see as their list.
#[derive(Debug, Drop)]
pub struct Items {
    items: Vec<Item>,
}

impl Model for Items {
    ghost use Rattle.std.specs.Prelude.{List};
    ghost use Rattle.wire.specs.declared.items.Item.{Item};

    ghost Value = { List Item };

    ghost view = { λ x. x.items.items };
}

impl Items {
    /// The items of a vector, which needs no memory.
    pub fn from_vec(items: Vec<Item>) -> Items
        ensures { result ≡ items.items }
    {
        Items { items }
    }

    /// The items as a vector again, which needs no memory.
    pub fn into_vec(self) -> Vec<Item>
        ensures { result.items ≡ self }
    {
        let Items { items } = self;
        items
    }

    pub fn as_slice(&self) -> &[Item]
        ensures { result.now ≡ self.now }
    {
        self.items.as_slice()
    }

    pub fn len(&self) -> usize
        ensures { result ≡ length self.now }
    {
        self.items.len()
    }
}
