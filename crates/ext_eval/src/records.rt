ghost use Rattle.std.specs.Prelude.{◌≡◌, ◌<◌, ◌^◌, IfOk};
ghost use Rattle.std.specs.Option.{option_copied, option_map};
ghost use Rattle.sp_base.specs.Limits.{IsKey};
ghost use Rattle.sp_base.specs.Places.{Place, same_place};
ghost use Rattle.ext_mean.specs.Views.{place_of, value_read};
ghost use Rattle.ext_mean.specs.Work.{known_or_wanted};
ghost use Rattle.ext_mean.specs.MeaningValues.{left_by, pending, place_changed};
ghost use Rattle.ext_mean.specs.MeaningStatements.{found, get, read};
ghost use Rattle.ext_eval.specs.Gives.{Gives};
ghost use Rattle.ext_eval.specs.Worlds.{world_of};

use crate::bytes::{is_key, key_of};
use crate::halt::Halt;
use crate::rights::can_read;
use crate::steps::{charge, require};
use crate::world::World;
use ext_mean::{Run, State};
use sp_base::{Blob, Change, Memory, ReadItem, TableId, Trap, Write, same_bytes};
use std::alloc::Global;

/// The units of a read.
const UNITS_OF_READ: u32 = 16;

fn is_read_at(read: &ReadItem, table: u64, key: &[u8]) -> bool
    ensures { result ≡ same_place (place_of read.now) (record { table = table; key = key.now }) }
{
    u64::from(read.table.0) == table && same_bytes(read.key.bytes(), key)
}

/// The read of a place.
fn read_of<'a>(reads: &'a [ReadItem], table: u64, key: &[u8]) -> Option<&'a ReadItem>
    ensures { option_map (λ read. read.value) (option_copied result)
        ≡ value_read reads.now (record { table = table; key = key.now }) }
{
    for read in reads {
        if is_read_at(read, table, key) {
            return Some(read);
        }
    }
    None
}

pub fn is_write_at(write: &Write, table: u64, key: &[u8]) -> bool
    ensures { result ≡ same_place (place_changed write.now) (record { table = table; key = key.now }) }
{
    u64::from(write.table.0) == table && same_bytes(write.key.bytes(), key)
}

/// The pending change of a place.
fn pending<'a>(writes: &'a [Write], table: u64, key: &[u8]) -> Option<&'a Write>
    ensures { option_map (λ write. write.change) (option_copied result)
        ≡ pending (record { table = table; key = key.now }) writes.now }
{
    for write in writes {
        if is_write_at(write, table, key) {
            return Some(write);
        }
    }
    None
}

/// What a pending change leaves at its place.
fn left_by(alloc: Global, change: &Change) -> Result<Option<Blob>, Memory>
    ensures { IfOk result (λ bytes. bytes ≡ left_by change.now) }
{
    match change {
        Change::Put(bytes) => Ok(Some(bytes.share(alloc)?)),
        Change::Del => Ok(None),
    }
}

/// A copy of a record's value.
fn share_value(alloc: Global, value: &Option<Blob>) -> Result<Option<Blob>, Memory>
    ensures { IfOk result (λ copy. copy ≡ value.now) }
{
    match value {
        Some(bytes) => Ok(Some(bytes.share(alloc)?)),
        None => Ok(None),
    }
}

/// The record at a place that is known. The run wants a place that is not.
fn known_or_wanted(
    world: &World,
    state: &mut State,
    table: u64,
    key: &[u8],
) -> Result<Option<Blob>, Halt>
    requires table { table < 2 ^ 32 }
    requires key { IsKey key.now }
    ensures { let place : Place = record { table = table; key = key.now } in
        Gives result state.new (known_or_wanted (value_read world.now.reads.now place) place state.old) }
{
    let read = read_of(world.reads, table, key);
    match read {
        Some(read) => Ok(share_value(world.alloc, &read.value)?),
        None => {
            let key = key_of(world.alloc, key)?;
            Err(Halt::Ended(Run::Wants {
                table: TableId(table as u32),
                key,
                used: state.used,
            }))
        }
    }
}

/// A pending change answers a read, else what is known.
fn found(world: &World, state: &mut State, table: u64, key: &[u8]) -> Result<Option<Blob>, Halt>
    requires table { table < 2 ^ 32 }
    requires key { IsKey key.now }
    ensures { let place : Place = record { table = table; key = key.now } in
        Gives result state.new (found (world_of world.now) place (pending place state.old.writes) state.old) }
{
    let change = pending(state.writes.as_slice(), table, key);
    match change {
        Some(write) => Ok(left_by(world.alloc, &write.change)?),
        None => known_or_wanted(world, state, table, key),
    }
}

/// The read of a record: the table's level, 16 units, and then the record.
pub fn read(world: &World, state: &mut State, table: u64, key: &[u8]) -> Result<Option<Blob>, Halt>
    requires { IsKey key.now }
    ensures { Gives result state.new (read (world_of world.now) table key.now state.old) }
{
    require(state, can_read(world.rights, table), Trap::Denied)?;
    charge(world, state, UNITS_OF_READ)?;
    found(world, state, table, key)
}

/// `get(table, key)`
pub fn get(world: &World, state: &mut State, table: u64, key: &[u8]) -> Result<Option<Blob>, Halt>
    ensures { Gives result state.new (get (world_of world.now) table key.now state.old) }
{
    require(state, is_key(key), Trap::Size)?;
    read(world, state, table, key)
}
