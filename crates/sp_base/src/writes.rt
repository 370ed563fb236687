ghost use Rattle.std.specs.Prelude.{◌≡◌, [], ◌∷◌, ◌++◌, length, IfOk, OnOk, OnErr};

use crate::blob::Blob;
use crate::key::Key;
use crate::memory::Memory;
use crate::numbers::TableId;
use std::alloc::Global;
use std::marker::Model;

/// What a write leaves at its place.
#[derive(Debug, Drop)]
pub enum Change {
    Put(Blob),
    Del,
}

/// The change of one record.
#[derive(Debug, Drop)]
pub struct Write {
    pub table: TableId,
    pub key: Key,
    pub change: Change,
}

/// The changes of one run, which contracts see as their list.
#[derive(Debug, Drop)]
pub struct Writes {
    items: Vec<Write>,
}

impl Model for Writes {
    ghost use Rattle.std.specs.Prelude.{List};
    ghost use Rattle.sp_base.specs.declared.writes.Write.{Write};

    ghost Value = { List Write };

    ghost view = { λ w. w.items.items };
}

impl Writes {
    /// No changes.
    pub fn new(alloc: Global) -> Writes
        ensures { result ≡ [] }
    {
        Writes {
            items: Vec::new(alloc),
        }
    }

    /// The changes of a vector, which needs no memory.
    pub fn from_vec(items: Vec<Write>) -> Writes
        ensures { result ≡ items.items }
    {
        Writes { items }
    }

    /// The changes as a vector again, which needs no memory.
    pub fn into_vec(self) -> Vec<Write>
        ensures { result.items ≡ self }
    {
        let Writes { items } = self;
        items
    }

    pub fn as_slice(&self) -> &[Write]
        ensures { result.now ≡ self.now }
    {
        self.items.as_slice()
    }

    pub fn len(&self) -> usize
        ensures { result ≡ length self.now }
    {
        self.items.len()
    }
}
