ghost use Rattle.std.specs.Prelude.{◌≡◌, ◌≤◌};
ghost use Rattle.wire.specs.Readers.{Gives, repeated};
ghost use Rattle.wire.specs.Fields.{asked_at, calls_at, read_at, reads_at, write_at, writes_at};
ghost use Rattle.wire.specs.Messages.{batch_item_at, items_at};

use crate::faults::ReadFault;
use crate::fields::{asked, read, write};
use crate::item_fields::batch_item;
use crate::items::{Item, Items};
use crate::numbers::{byte, u16_from};
use crate::requests::Calls;
use sp_base::{Asked, ReadItem, Reads, Write, Writes};
use std::alloc::Global;

fn write_list(alloc: Global, count: u8, bytes: &[u8]) -> Result<(Vec<Write>, &[u8]), ReadFault>
    ensures { Gives (λ x. (x.0.items, x.1.now)) result (repeated write_at count bytes.now) }
{
    let mut list = Vec::new(alloc);
    let mut rest = bytes;
    for _ in 0..count {
        let (next, after) = write(alloc, rest)?;
        list.push(next)?;
        rest = after;
    }
    Ok((list, rest))
}

/// Writes behind their count.
#[tactic(auto, unfolding(crate::specs::Fields::writes_at))]
pub fn writes(alloc: Global, bytes: &[u8]) -> Result<(Writes, &[u8]), ReadFault>
    ensures { Gives (λ x. (x.0, x.1.now)) result (writes_at bytes.now) }
{
    let (count, rest) = byte(bytes, 0, 255)?;
    let (list, rest) = write_list(alloc, count, rest)?;
    Ok((Writes::from_vec(list), rest))
}

fn read_list(alloc: Global, count: u16, bytes: &[u8]) -> Result<(Vec<ReadItem>, &[u8]), ReadFault>
    ensures { Gives (λ x. (x.0.items, x.1.now)) result (repeated read_at count bytes.now) }
{
    let mut list = Vec::new(alloc);
    let mut rest = bytes;
    for _ in 0..count {
        let (next, after) = read(alloc, rest)?;
        list.push(next)?;
        rest = after;
    }
    Ok((list, rest))
}

/// Reads behind their count.
#[tactic(auto, unfolding(crate::specs::Fields::reads_at))]
pub fn reads(alloc: Global, bytes: &[u8]) -> Result<(Reads, &[u8]), ReadFault>
    ensures { Gives (λ x. (x.0, x.1.now)) result (reads_at bytes.now) }
{
    let (count, rest) = u16_from(bytes, 0, 65_535)?;
    let (list, rest) = read_list(alloc, count, rest)?;
    Ok((Reads::from_vec(list), rest))
}

fn call_list(alloc: Global, count: u16, bytes: &[u8]) -> Result<(Vec<Asked>, &[u8]), ReadFault>
    ensures { Gives (λ x. (x.0.items, x.1.now)) result (repeated asked_at count bytes.now) }
{
    let mut list = Vec::new(alloc);
    let mut rest = bytes;
    for _ in 0..count {
        let (next, after) = asked(alloc, rest)?;
        list.push(next)?;
        rest = after;
    }
    Ok((list, rest))
}

/// From 1 to 64 calls behind their count.
#[tactic(auto, unfolding(crate::specs::Fields::calls_at))]
pub fn calls(alloc: Global, bytes: &[u8]) -> Result<(Calls, &[u8]), ReadFault>
    ensures { Gives (λ x. (x.0, x.1.now)) result (calls_at bytes.now) }
{
    let (count, rest) = u16_from(bytes, 1, 64)?;
    let (list, rest) = call_list(alloc, count, rest)?;
    Ok((Calls::from_vec(list), rest))
}

fn item_list(alloc: Global, count: u16, bytes: &[u8]) -> Result<(Vec<Item>, &[u8]), ReadFault>
    ensures { Gives (λ x. (x.0.items, x.1.now)) result (repeated batch_item_at count bytes.now) }
{
    let mut list = Vec::new(alloc);
    let mut rest = bytes;
    for _ in 0..count {
        let (next, after) = batch_item(alloc, rest)?;
        list.push(next)?;
        rest = after;
    }
    Ok((list, rest))
}

/// From 1 to 64 items of a batch behind their count.
#[tactic(auto, unfolding(crate::specs::Messages::items_at))]
pub fn items(alloc: Global, bytes: &[u8]) -> Result<(Items, &[u8]), ReadFault>
    ensures { Gives (λ x. (x.0, x.1.now)) result (items_at bytes.now) }
{
    let (count, rest) = u16_from(bytes, 1, 64)?;
    let (list, rest) = item_list(alloc, count, rest)?;
    Ok((Items::from_vec(list), rest))
}
