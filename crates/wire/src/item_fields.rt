ghost use Rattle.std.specs.Prelude.{◌≡◌};
ghost use Rattle.wire.specs.Readers.{Gives};
ghost use Rattle.wire.specs.Messages.{batch_item_at, committed_at, conflict_at, no_extension_at, parked_item_at, pushed_at, stale_at};

use crate::faults::ReadFault;
use crate::fields::{key, outcome};
use crate::items::Item;
use crate::lists::reads;
use crate::numbers::{byte, u32_any, u64_any};
use sp_base::{CallNo, TableId};
use std::alloc::Global;

#[tactic(auto, unfolding(crate::specs::Messages::committed_at))]
fn committed(alloc: Global, bytes: &[u8]) -> Result<(Item, &[u8]), ReadFault>
    ensures { Gives (λ x. (x.0, x.1.now)) result (committed_at bytes.now) }
{
    let (n, rest) = u64_any(bytes)?;
    let (outcome, rest) = outcome(alloc, rest)?;
    Ok((Item::Committed { n, outcome }, rest))
}

#[tactic(auto, unfolding(crate::specs::Messages::stale_at))]
fn stale(bytes: &[u8]) -> Result<(Item, &[u8]), ReadFault>
    ensures { Gives (λ x. (x.0, x.1.now)) result (stale_at bytes.now) }
{
    let (last, rest) = u64_any(bytes)?;
    let (at, rest) = u64_any(rest)?;
    Ok((Item::Stale { last, at }, rest))
}

#[tactic(auto, unfolding(crate::specs::Messages::conflict_at))]
fn conflict(alloc: Global, bytes: &[u8]) -> Result<(Item, &[u8]), ReadFault>
    ensures { Gives (λ x. (x.0, x.1.now)) result (conflict_at bytes.now) }
{
    let (table, rest) = u32_any(bytes)?;
    let (key, rest) = key(alloc, rest)?;
    let (read, rest) = u64_any(rest)?;
    let (read_at, rest) = u64_any(rest)?;
    let (now, rest) = u64_any(rest)?;
    let (now_at, rest) = u64_any(rest)?;
    let table = TableId(table);
    let item = Item::Conflict {
        table,
        key,
        read,
        read_at,
        now,
        now_at,
    };
    Ok((item, rest))
}

#[tactic(auto, unfolding(crate::specs::Messages::pushed_at))]
fn pushed(alloc: Global, bytes: &[u8]) -> Result<(Item, &[u8]), ReadFault>
    ensures { Gives (λ x. (x.0, x.1.now)) result (pushed_at bytes.now) }
{
    let (load, rest) = u32_any(bytes)?;
    let (spent, rest) = u32_any(rest)?;
    let (reads, rest) = reads(alloc, rest)?;
    Ok((Item::Pushed { load, spent, reads }, rest))
}

#[tactic(auto, unfolding(crate::specs::Messages::no_extension_at))]
fn no_extension(bytes: &[u8]) -> Result<(Item, &[u8]), ReadFault>
    ensures { Gives (λ x. (x.0, x.1.now)) result (no_extension_at bytes.now) }
{
    let (count, rest) = u32_any(bytes)?;
    let (at, rest) = u64_any(rest)?;
    Ok((Item::NoExtension { count, at }, rest))
}

/// The end of a call of a batch.
#[tactic(auto, unfolding(crate::specs::Messages::batch_item_at))]
pub fn batch_item(alloc: Global, bytes: &[u8]) -> Result<(Item, &[u8]), ReadFault>
    ensures { Gives (λ x. (x.0, x.1.now)) result (batch_item_at bytes.now) }
{
    match bytes {
        [] => Err(ReadFault::Bad { left: 0 }),
        [0, rest @ ..] => committed(alloc, rest),
        [1, rest @ ..] => stale(rest),
        [2, rest @ ..] => conflict(alloc, rest),
        [3, rest @ ..] => pushed(alloc, rest),
        [4, rest @ ..] => {
            let (at, rest) = u64_any(rest)?;
            Ok((Item::Full { at }, rest))
        }
        [5, rest @ ..] => {
            let (number, rest) = u64_any(rest)?;
            let number = CallNo(number);
            Ok((Item::Busy { number }, rest))
        }
        [6, rest @ ..] => Ok((Item::Repeated, rest)),
        [7, rest @ ..] => no_extension(rest),
        [8, rest @ ..] => Ok((Item::BadBudget, rest)),
        [9, rest @ ..] => Ok((Item::Memory, rest)),
        [_, ..] => Err(ReadFault::Bad { left: bytes.len() }),
    }
}

/// The end of a parked call.
#[tactic(auto, unfolding(crate::specs::Messages::parked_item_at))]
pub fn parked_item(alloc: Global, bytes: &[u8]) -> Result<(Item, &[u8]), ReadFault>
    ensures { Gives (λ x. (x.0, x.1.now)) result (parked_item_at bytes.now) }
{
    match bytes {
        [] => Err(ReadFault::Bad { left: 0 }),
        [0, rest @ ..] => committed(alloc, rest),
        [1, rest @ ..] => stale(rest),
        [2, rest @ ..] => conflict(alloc, rest),
        [4, rest @ ..] => {
            let (at, rest) = u64_any(rest)?;
            Ok((Item::Full { at }, rest))
        }
        [9, rest @ ..] => Ok((Item::Memory, rest)),
        [10, rest @ ..] => {
            let (table, rest) = u32_any(rest)?;
            let table = TableId(table);
            Ok((Item::Foreign { table }, rest))
        }
        [11, rest @ ..] => {
            let (code, rest) = byte(rest, 1, 3)?;
            Ok((Item::Shape { code }, rest))
        }
        [12, rest @ ..] => Ok((Item::Lied, rest)),
        [13, rest @ ..] => Ok((Item::NotParked, rest)),
        [_, ..] => Err(ReadFault::Bad { left: bytes.len() }),
    }
}
