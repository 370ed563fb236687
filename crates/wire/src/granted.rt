ghost use Rattle.std.specs.Prelude.{◌≡◌, ◌≤◌, IfOk};
ghost use Rattle.wire.specs.Readers.{Gives};
ghost use Rattle.wire.specs.Fields.{level_of_number, right_in, rights_at, tables_from};

use crate::faults::ReadFault;
use crate::numbers::{byte, u32_from};
use sp_base::{Level, Rights, TableId};
use std::alloc::Global;

fn level(n: u8) -> Level
    ensures { result ≡ level_of_number n }
{
    match n {
        2 => Level::Write,
        _ => Level::Read,
    }
}

#[tactic(auto, unfolding(crate::specs::Fields::right_in))]
fn right(bytes: &[u8], least: u32, most: u32) -> Result<((TableId, Level), &[u8]), ReadFault>
    requires { least ≤ most }
    ensures given { Gives (λ x. (x.0, x.1.now)) result (right_in least most bytes.now) }
    ensures within { IfOk result (λ x. (least ≤ x.0.0.0) × (x.0.0.0 ≤ most)) }
{
    let (table, rest) = u32_from(bytes, least, most)?;
    let (n, rest) = byte(rest, 1, 2)?;
    Ok(((TableId(table), level(n)), rest))
}

/// Rights whose tables strictly increase. Each leaves room for those behind it.
fn right_list(
    alloc: Global,
    count: u8,
    bytes: &[u8],
) -> Result<(Vec<(TableId, Level)>, &[u8]), ReadFault>
    ensures { Gives (λ x. (x.0.items, x.1.now)) result (tables_from count 0 bytes.now) }
{
    let mut list = Vec::new(alloc);
    let mut rest = bytes;
    let mut least: u64 = 0;
    for i in 0..count {
        let most = u32::MAX - u32::from(count - 1 - i);
        let (next, after) = right(rest, least as u32, most)?;
        list.push(next)?;
        least = u64::from(next.0.0) + 1;
        rest = after;
    }
    Ok((list, rest))
}

/// At most 64 rights behind their count.
#[tactic(auto, unfolding(crate::specs::Fields::rights_at))]
pub fn rights(alloc: Global, bytes: &[u8]) -> Result<(Rights, &[u8]), ReadFault>
    ensures { Gives (λ x. (x.0, x.1.now)) result (rights_at bytes.now) }
{
    let (count, rest) = byte(bytes, 0, 64)?;
    let (list, rest) = right_list(alloc, count, rest)?;
    Ok((Rights::of(list), rest))
}
