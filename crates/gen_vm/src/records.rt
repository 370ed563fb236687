ghost use Rattle.std.specs.Prelude.{◌≡◌, IfOk};
ghost use Rattle.std.specs.Option.{option_copied, option_map};
ghost use Rattle.sp_base.specs.Places.{Place, same_place};
ghost use Rattle.ext_mean.specs.Views.{place_of, value_read};
ghost use Rattle.ext_mean.specs.MeaningValues.{left_by, pending, place_changed};
ghost use Rattle.gen_vm.specs.Finding.{first_from};

use sp_base::{Blob, Change, Key, Memory, ReadItem, TableId, Write};
use std::alloc::Global;

fn is_read_at(read: &ReadItem, table: TableId, key: &Key) -> bool
    ensures { result ≡ same_place (place_of read.now) (record { table = table.0; key = key.now }) }
{
    read.table.0 == table.0 && read.key.is_same(key)
}

/// The read of a place.
pub fn read_of<'a>(reads: &'a [ReadItem], table: TableId, key: &Key) -> Option<&'a ReadItem>
    ensures { option_map (λ read. read.value) (option_copied result)
        ≡ value_read reads.now (record { table = table.0; key = key.now }) }
{
    for read in reads {
        if is_read_at(read, table, key) {
            return Some(read);
        }
    }
    None
}

fn is_write_at(write: &Write, table: TableId, key: &Key) -> bool
    ensures { result ≡ same_place (place_changed write.now) (record { table = table.0; key = key.now }) }
{
    write.table.0 == table.0 && write.key.is_same(key)
}

/// The pending change of a place.
pub fn pending<'a>(writes: &'a [Write], table: TableId, key: &Key) -> Option<&'a Write>
    ensures { option_map (λ write. write.change) (option_copied result)
        ≡ pending (record { table = table.0; key = key.now }) writes.now }
{
    for write in writes {
        if is_write_at(write, table, key) {
            return Some(write);
        }
    }
    None
}

/// Where among the changes the one of a place stands.
pub fn place_of_change(writes: &[Write], table: TableId, key: &Key) -> Option<usize>
    ensures { let place : Place = record { table = table.0; key = key.now } in
        result ≡ first_from (λ write. same_place (place_changed write) place) 0 writes.now }
{
    for (at, write) in writes.iter().enumerate() {
        if is_write_at(write, table, key) {
            return Some(at);
        }
    }
    None
}

/// What a pending change leaves at its place.
pub fn left_by(alloc: Global, change: &Change) -> Result<Option<Blob>, Memory>
    ensures { IfOk result (λ bytes. bytes ≡ left_by change.now) }
{
    match change {
        Change::Put(bytes) => Ok(Some(bytes.share(alloc)?)),
        Change::Del => Ok(None),
    }
}

/// A copy of a record's value.
pub fn share_value(alloc: Global, value: &Option<Blob>) -> Result<Option<Blob>, Memory>
    ensures { IfOk result (λ copy. copy ≡ value.now) }
{
    match value {
        Some(bytes) => Ok(Some(bytes.share(alloc)?)),
        None => Ok(None),
    }
}
