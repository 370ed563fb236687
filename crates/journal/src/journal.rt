ghost use Rattle.std.specs.Prelude.{◌≡◌, ◌≤◌, ◌<◌, ◌+◌, ◌↔◌, IsTrue, OnOk, [], ◌∷◌, ◌++◌, length, slice_get};
ghost use Rattle.std.specs.Option.{option_copied};
ghost use Rattle.journal.specs.Journals.{IsCounted};
ghost use Rattle.journal.specs.Sizes.{EntryFits, size_of, size_of_entry};

use crate::entry::Entry;
use crate::size::entry_size;
use sp_base::{MOST_ENTRIES, MOST_JOURNAL, Memory};
use std::alloc::Global;
use std::marker::Model;

/// A list of entries within its limits, which only grows. Contracts see the entries, the most of
/// them, and for how many more there is room in memory.
#[derive(Debug, Drop)]
pub struct Journal {
    entries: Vec<Entry>,
    limit: u64,
    /// The bytes of the entries, as `entry_size` counts them.
    size: u64,
}

impl Model for Journal {
    ghost use Rattle.std.specs.Prelude.{vec_len, vec_capacity, ◌-◌};
    ghost use Rattle.journal.specs.Journals.{IsCounted, JournalValue};

    ghost Value = { JournalValue };

    ghost view = { λ j. record {
      entries = j.entries.items;
      limit = j.limit;
      spare = vec_capacity j.entries - vec_len j.entries;
    } };

    ghost invariant = { λ j. IsCounted j.limit j.size j.entries.items };
}

impl Journal {
    /// A journal with no entries, for at most `limit` of them.
    pub fn new(alloc: Global, limit: u64) -> Journal
        requires { limit ≤ MOST_ENTRIES }
        ensures entries { result.entries ≡ [] }
        ensures limit { result.limit ≡ limit }
    {
        Journal {
            entries: Vec::new(alloc),
            limit,
            size: 0,
        }
    }

    pub fn len(&self) -> u64
        ensures length { result ≡ length self.now.entries }
        ensures within { result ≤ self.now.limit }
        ensures most { self.now.limit ≤ MOST_ENTRIES }
    {
        self.entries.len() as u64
    }

    pub fn is_empty(&self) -> bool
        ensures { IsTrue result ↔ (length self.now.entries ≡ 0) }
    {
        self.entries.is_empty()
    }

    /// The most entries.
    pub fn limit(&self) -> u64
        ensures { result ≡ self.now.limit }
    {
        self.limit
    }

    /// The bytes of the entries, as `entry_size` counts them.
    pub fn size(&self) -> u64
        ensures size { result ≡ size_of self.now.entries }
        ensures within { result ≤ MOST_JOURNAL }
    {
        self.size
    }

    /// The entry with this number.
    pub fn at(&self, n: u64) -> Option<&Entry>
        ensures { option_copied result ≡ slice_get self.now.entries n }
    {
        self.entries.get(n as usize)
    }

    /// The entries, from number 0 on.
    pub fn entries(&self) -> &[Entry]
        ensures { result.now ≡ self.now.entries }
    {
        self.entries.as_slice()
    }

    /// Makes room for one more entry.
    pub fn reserve(&mut self) -> Result<(), Memory>
        ensures entries { self.new.entries ≡ self.old.entries }
        ensures limit { self.new.limit ≡ self.old.limit }
        ensures room { OnOk result (0 < self.new.spare) }
    {
        self.entries.reserve(1)?;
        Ok(())
    }

    /// Adds an entry at the end, where room for it was made.
    pub fn push_reserved(&mut self, entry: Entry)
        requires room { 0 < self.old.spare }
        requires below { length self.old.entries < self.old.limit }
        requires fits { EntryFits entry }
        requires small { size_of self.old.entries + size_of_entry entry ≤ MOST_JOURNAL }
        ensures entries { self.new.entries ≡ self.old.entries ++ entry ∷ [] }
        ensures limit { self.new.limit ≡ self.old.limit }
        ensures room { self.old.spare ≤ self.new.spare + 1 }
    {
        self.size += entry_size(&entry);
        self.entries.push_reserved(entry);
    }
}
