ghost use Rattle.std.specs.Prelude.{◌≡◌, ◌≤◌, ◌<◌, ◌+◌, ◌-◌, ◌^◌, MatchOption, OnOk, if◌then◌else◌, position};
ghost use Rattle.sp_base.specs.Places.{Place, same_place};
ghost use Rattle.records.specs.Records.{absent, is_at, place_at, put_record, record_in};

use crate::stored::Stored;
use sp_base::{Blob, Key, Memory, TableId};
use std::alloc::Global;
use std::marker::Model;

/// The records of all tables, with their versions. Contracts see what stands at each place, and for
/// how many more records there is room.
///
/// A look-up goes through the records that stand.
#[derive(Debug, Drop)]
pub struct Tables {
    stored: Vec<Stored>,
}

impl Model for Tables {
    ghost use Rattle.std.specs.Prelude.{vec_len, vec_capacity, ◌-◌};
    ghost use Rattle.records.specs.Records.{TablesValue};

    ghost Value = { TablesValue };

    ghost view = { λ t. record { stored = t.stored.items; spare = vec_capacity t.stored - vec_len t.stored } };
}

impl Tables {
    /// Tables with no records.
    pub fn new(alloc: Global) -> Tables
        ensures { (place : Place) → record_in result place ≡ absent }
    {
        Tables {
            stored: Vec::new(alloc),
        }
    }

    /// The record at a place: its version and its value.
    pub fn look(&self, table: TableId, key: &Key) -> Option<(u64, &Blob)>
        ensures { MatchOption result (record_in self.now (place_at table key.now) ≡ absent)
            (λ found. record_in self.now (place_at table key.now) ≡ put_record found.0 found.1.now) }
    {
        for stored in &self.stored {
            if stored.is_at(table, key) {
                return Some((stored.version, &stored.value));
            }
        }
        None
    }

    /// The version of a place: 0 where it is absent.
    pub fn version(&self, table: TableId, key: &Key) -> u64
        ensures { result ≡ (record_in self.now (place_at table key.now)).version }
    {
        match self.look(table, key) {
            Some((version, _)) => version,
            None => 0,
        }
    }

    /// Makes room for `n` more records.
    pub fn reserve(&mut self, n: u32) -> Result<(), Memory>
        ensures records { (place : Place) → record_in self.new place ≡ record_in self.old place }
        ensures room { OnOk result (n ≤ self.new.spare) }
    {
        self.stored.reserve(n as usize)?;
        Ok(())
    }

    /// Puts a value at a place under a version, and leaves every other place as it was.
    pub fn put(&mut self, table: TableId, key: Key, value: Blob, version: u64)
        requires { 0 < self.old.spare }
        ensures records { (place : Place) → record_in self.new place
            ≡ (if same_place (place_at table key) place then put_record version value else record_in self.old place) }
        ensures room { self.old.spare ≤ self.new.spare + 1 }
    {
        match index_of(self.stored.as_slice(), table, &key) {
            Some(at) => {
                let stored = &mut self.stored[at];
                stored.version = version;
                stored.value = value;
            }
            None => self.stored.push_reserved(Stored {
                table,
                key,
                version,
                value,
            }),
        }
    }

    /// Leaves nothing at a place, and every other place as it was.
    pub fn del(&mut self, table: TableId, key: &Key)
        ensures records { (place : Place) → record_in self.new place
            ≡ (if same_place (place_at table key.now) place then absent else record_in self.old place) }
        ensures room { self.old.spare ≤ self.new.spare }
    {
        self.stored.retain(|stored| !stored.is_at(table, key));
    }
}

/// The index of the record at a place.
fn index_of(stored: &[Stored], table: TableId, key: &Key) -> Option<usize>
    ensures { result ≡ position (is_at (place_at table key.now)) stored.now }
{
    stored.iter().position(|stored| stored.is_at(table, key))
}
