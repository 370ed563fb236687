//! The ends of a batch's calls: their items are filled in, and the calls that were handed back are parked.

ghost use Rattle.std.specs.Prelude.{◌≡◌, IfOk, slice_get};
ghost use Rattle.rw_set.specs.ReadLists.{IsReadList};
ghost use Rattle.session.specs.Filling.{Fills, FillsOne, IsToldAs, waits};

use crate::parked_calls::ParkedCalls;
use crate::told::commit_item;
use book::{CallEnd, End};
use sp_base::{Blob, Memory, ReadItem, Reads};
use std::alloc::Global;
use task::Parked;
use wire::Item;

pub fn share_value(alloc: Global, value: &Option<Blob>) -> Result<Option<Blob>, Memory>
    ensures { IfOk result (λ shared. shared ≡ value.now) }
{
    match value {
        Some(value) => Ok(Some(value.share(alloc)?)),
        None => Ok(None),
    }
}

fn share_read(alloc: Global, read: &ReadItem) -> Result<ReadItem, Memory>
    ensures { IfOk result (λ shared. shared ≡ read.now) }
{
    Ok(ReadItem {
        table: read.table,
        key: read.key.share(alloc)?,
        version: read.version,
        read_at: read.read_at,
        value: share_value(alloc, &read.value)?,
    })
}

fn share_reads(alloc: Global, reads: &[ReadItem]) -> Result<Reads, Memory>
    ensures { IfOk result (λ shared. shared ≡ reads.now) }
{
    let mut shared = Reads::new(alloc);
    for read in reads {
        let read = share_read(alloc, read)?;
        shared.push(read)?;
    }
    Ok(shared)
}

/// The reads of a call that is handed back, for its client.
fn reads_told(alloc: Global, parked: &Parked) -> Result<Reads, Memory>
    ensures told { IfOk result (λ reads. reads ≡ parked.now.reads) }
    ensures kept { IsReadList parked.now.reads }
{
    share_reads(alloc, parked.reads().items())
}

/// Parks a call that is handed back. One for which there is no memory is not.
fn hand_back(alloc: Global, calls: &mut ParkedCalls, load: u32, spent: u32, parked: Parked) -> Item
    ensures { IsToldAs calls.old calls.new (End.Pushed load spent parked) result }
{
    let Ok(reads) = reads_told(alloc, &parked) else {
        return Item::Memory;
    };
    match calls.park(parked) {
        Ok(()) => Item::Pushed { load, spent, reads },
        Err(Memory) => Item::Memory,
    }
}

/// Tells how a call ended.
fn end_told(alloc: Global, calls: &mut ParkedCalls, end: End) -> Item
    ensures { IsToldAs calls.old calls.new end result }
{
    match end {
        End::Settled(commit) => commit_item(commit),
        End::Pushed {
            load,
            spent,
            parked,
        } => hand_back(alloc, calls, load, spent, parked),
        End::Memory => Item::Memory,
    }
}

/// Whether the call at a place waits for its end.
fn waits_at(items: &[Item], place: u16) -> bool
    ensures { result ≡ waits (slice_get items.now place) }
{
    matches!(items.get(place as usize), Some(Item::Memory))
}

/// Tells the end of a call that waits for it.
fn fill_one(alloc: Global, calls: &mut ParkedCalls, items: &mut Vec<Item>, one: CallEnd)
    ensures { FillsOne calls.old items.old.items one calls.new items.new.items }
{
    let CallEnd { place, end } = one;
    if waits_at(items.as_slice(), place) {
        items[place as usize] = end_told(alloc, calls, end);
    }
}

/// The items with those of the calls that have ended. Of two ends of one call the first is told.
pub fn fill(
    alloc: Global,
    calls: &mut ParkedCalls,
    items: Vec<Item>,
    ends: Vec<CallEnd>,
) -> Vec<Item>
    ensures { Fills calls.old items.items ends.items calls.new result.items }
{
    let mut items = items;
    for one in ends {
        fill_one(alloc, calls, &mut items, one);
    }
    items
}
