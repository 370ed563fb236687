ghost use Rattle.std.specs.Prelude.{◌≡◌};
ghost use Rattle.records.specs.Records.{is_at, place_at};

use sp_base::{Blob, Key, TableId};

/// A record that stands: its place, its version and its value.
#[derive(Debug, Drop)]
pub struct Stored {
    pub table: TableId,
    pub key: Key,
    pub version: u64,
    pub value: Blob,
}

impl Stored {
    /// Whether the record stands at this place.
    pub fn is_at(&self, table: TableId, key: &Key) -> bool
        ensures { result ≡ is_at (place_at table key.now) self.now }
    {
        self.table == table && self.key.is_same(key)
    }
}
