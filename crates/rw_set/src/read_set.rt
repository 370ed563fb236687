ghost use Rattle.std.specs.Prelude.{◌≡◌, ◌<◌, [], ◌∷◌, ◌++◌, None, length, OnOk, OnErr, IfErr};
ghost use Rattle.std.specs.Option.{option_copied};
ghost use Rattle.sp_base.specs.Spelling.{FitsOpt};
ghost use Rattle.ext_mean.specs.Laws.{place_in};
ghost use Rattle.ext_mean.specs.Views.{place_of};
ghost use Rattle.rw_set.specs.ReadLists.{IsReadList, read_of};
ghost use Rattle.rw_set.specs.Weight.{weight_of};

use crate::search::{find, place_for};
use crate::weight::read_weight;
use sp_base::{Key, MOST_READS, Memory, ReadItem, Reads, TableId};
use std::alloc::Global;
use std::marker::Model;

/// The records that a call has read, in order: at most 6,250, of distinct places. Contracts see
/// their list.
#[derive(Debug, Drop)]
pub struct ReadSet {
    items: Vec<ReadItem>,
    /// The positions of the reads, in the order of their places.
    order: Vec<u32>,
    weight: u64,
}

impl Model for ReadSet {
    ghost use Rattle.std.specs.Prelude.{List};
    ghost use Rattle.sp_base.specs.declared.reads.ReadItem.{ReadItem};
    ghost use Rattle.rw_set.specs.Order.{AreKept};

    ghost Value = { List ReadItem };

    ghost view = { λ r. r.items.items };

    ghost invariant = { λ r. AreKept r.items.items r.order.items r.weight };
}

impl ReadSet {
    /// No reads.
    pub fn new(alloc: Global) -> ReadSet
        ensures { result ≡ [] }
    {
        ReadSet {
            items: Vec::new(alloc),
            order: Vec::new(alloc),
            weight: 0,
        }
    }

    /// Adds a read at the end. Without memory nothing changes, and the read comes back. It costs a
    /// search in the order, and room there for its position.
    pub fn add(&mut self, item: ReadItem) -> Result<(), (Memory, ReadItem)>
        requires new { read_of self.old (place_of item) ≡ None }
        requires room { length self.old < MOST_READS }
        requires value { FitsOpt item.value }
        ensures ok { OnOk result (self.new ≡ self.old ++ item ∷ []) }
        ensures err { OnErr result (self.new ≡ self.old) }
        ensures back { IfErr result (λ refused. refused.1 ≡ item) }
    {
        let position = self.items.len() as u32;
        let weight = self.weight + read_weight(&item);
        let items = self.items.as_slice();
        let at = place_for(items, self.order.as_slice(), item.table, &item.key);
        let Ok(()) = self.items.reserve(1) else {
            return Err((Memory, item));
        };
        let Ok(()) = self.order.insert(at, position) else {
            return Err((Memory, item));
        };
        match self.items.push(item) {
            Ok(()) => {
                self.weight = weight;
                Ok(())
            }
            Err(_) => unreachable!(),
        }
    }

    /// The read at a place, where there is one. It is sought by halves in the order of the places:
    /// some 13 comparisons for the most reads.
    pub fn find(&self, table: TableId, key: &Key) -> Option<&ReadItem>
        ensures { option_copied result ≡ read_of self.now (place_in table key.now) }
    {
        find(self.items.as_slice(), self.order.as_slice(), table, key)
    }

    /// The reads as a list of their own, which needs no memory.
    pub fn into_reads(self) -> Reads
        ensures { result ≡ self }
    {
        let ReadSet { items, .. } = self;
        Reads::from_vec(items)
    }

    /// The reads, in order.
    pub fn items(&self) -> &[ReadItem]
        ensures items { result.now ≡ self.now }
        ensures kept { IsReadList self.now }
    {
        self.items.as_slice()
    }

    /// The bytes of the reads as frames spell them, kept as they are added.
    pub fn weight(&self) -> u64
        ensures { result ≡ weight_of self.now }
    {
        self.weight
    }
}
