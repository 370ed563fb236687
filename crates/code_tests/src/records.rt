//! The records that are known to the cases, and the rights with which they run: table 5 may be read, and 6
//! written too.

use sp_base::{Blob, Key, Level, ReadItem, Rights, TableId};
use std::alloc::Global;
use std::test::Fail;

const KNOWN: [(u32, &[u8], Option<&[u8]>); 6] = [
    (5, b"k", Some(b"v1")),
    (5, b"a", Some(b"bc")),
    (5, b"b", Some(b"ad")),
    (5, b"c", Some(b"a")),
    (6, b"none", None),
    (6, b"one", Some(b"\x01\0\0\0\0\0\0\0")),
];

fn record(alloc: Global, table: u32, key: &[u8], value: Option<&[u8]>) -> Result<ReadItem, Fail> {
    let value = match value {
        Some(bytes) => Some(Blob::of(alloc, bytes)?),
        None => None,
    };
    Ok(ReadItem {
        table: TableId(table),
        key: Key::of(alloc, key)?,
        version: 0,
        read_at: 0,
        value,
    })
}

/// All of them.
pub fn known(alloc: Global) -> Result<Vec<ReadItem>, Fail> {
    let mut reads = Vec::new(alloc);
    for (table, key, value) in KNOWN {
        reads.push(record(alloc, table, key, value)?)?;
    }
    Ok(reads)
}

/// The one of a place.
pub fn known_at(alloc: Global, place: TableId, at: &Key) -> Result<Option<ReadItem>, Fail> {
    for (table, key, value) in KNOWN {
        if table == place.0 && key == at.bytes() {
            return Ok(Some(record(alloc, table, key, value)?));
        }
    }
    Ok(None)
}

pub fn rights(alloc: Global) -> Result<Rights, Fail> {
    Ok(Rights::of(vec![in alloc; (TableId(5), Level::Read), (TableId(6), Level::Write)]?))
}
