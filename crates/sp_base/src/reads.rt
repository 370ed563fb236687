ghost use Rattle.std.specs.Prelude.{◌≡◌, [], ◌∷◌, ◌++◌, length, IfOk, OnOk, OnErr};

use crate::blob::Blob;
use crate::key::Key;
use crate::memory::Memory;
use crate::numbers::TableId;
use std::alloc::Global;
use std::marker::Model;

/// A record as a run read it.
#[derive(Debug, Drop)]
pub struct ReadItem {
    pub table: TableId,
    pub key: Key,
    /// The record's version: 0 where it was absent.
    pub version: u64,
    /// The journal's length when the record was read.
    pub read_at: u64,
    /// The record's value, or nothing where it was absent.
    pub value: Option<Blob>,
}

/// The records that a run read, in order, which contracts see as their list.
#[derive(Debug, Drop)]
pub struct Reads {
    items: Vec<ReadItem>,
}

impl Model for Reads {
    ghost use Rattle.std.specs.Prelude.{List};
    ghost use Rattle.sp_base.specs.declared.reads.ReadItem.{ReadItem};

    ghost Value = { List ReadItem };

    ghost view = { λ r. r.items.items };
}

impl Reads {
    /// No reads.
    pub fn new(alloc: Global) -> Reads
        ensures { result ≡ [] }
    {
        Reads {
            items: Vec::new(alloc),
        }
    }

    /// The reads of a vector, which needs no memory.
    pub fn from_vec(items: Vec<ReadItem>) -> Reads
        ensures { result ≡ items.items }
    {
        Reads { items }
    }

    /// The reads as a vector again, which needs no memory.
    pub fn into_vec(self) -> Vec<ReadItem>
        ensures { result.items ≡ self }
    {
        let Reads { items } = self;
        items
    }

    pub fn as_slice(&self) -> &[ReadItem]
        ensures { result.now ≡ self.now }
    {
        self.items.as_slice()
    }

    pub fn len(&self) -> usize
        ensures { result ≡ length self.now }
    {
        self.items.len()
    }

    /// Adds a read at the end. Without memory nothing changes.
    pub fn push(&mut self, item: ReadItem) -> Result<(), Memory>
        ensures ok { OnOk result (self.new ≡ self.old ++ item ∷ []) }
        ensures err { OnErr result (self.new ≡ self.old) }
    {
        self.items.push(item)?;
        Ok(())
    }
}
