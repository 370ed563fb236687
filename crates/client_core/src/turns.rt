//! Whether the answer to a batch is one in turn.

ghost use Rattle.std.specs.Prelude.{◌≡◌, IfOk, IfErr, OnErr, Some, None, map};
ghost use Rattle.std.specs.List.{list_any};
ghost use Rattle.std.specs.Option.{option_copied};
ghost use Rattle.sp_base.specs.Places.{same_place};
ghost use Rattle.ext_mean.specs.Views.{place_of};
ghost use Rattle.parked.specs.Taking.{stands_twice};
ghost use Rattle.client_core.specs.Talking.{are_in_turn, is_in_turn, may_carry, pushed_reads};

use sp_base::{Call, MOST_BUDGET, ReadItem, Reads};
use wire::Item;

/// The reads of a pushed call, or the item again.
pub fn pushed(item: Item) -> Result<Reads, Item>
    ensures ok { IfOk result (λ reads. pushed_reads item ≡ Some reads) }
    ensures err { OnErr result (pushed_reads item ≡ None) }
    ensures back { IfErr result (λ same. same ≡ item) }
{
    match item {
        Item::Pushed { reads, .. } => Ok(reads),
        other => Err(other),
    }
}

/// The reads of a pushed call.
pub fn pushed_in(item: &Item) -> Option<&Reads>
    ensures { option_copied result ≡ pushed_reads item.now }
{
    match item {
        Item::Pushed { reads, .. } => Some(reads),
        _ => None,
    }
}

/// Whether a read's place is that of one of these.
fn is_read_in(read: &ReadItem, reads: &[ReadItem]) -> bool
    ensures { result ≡ list_any (same_place (place_of read.now)) (map place_of reads.now) }
{
    for other in reads {
        if read.table == other.table && read.key.is_same(&other.key) {
            return true;
        }
    }
    false
}

/// Whether a place stands twice among reads. Each is compared with all behind it.
fn has_twice(reads: &[ReadItem]) -> bool
    ensures { result ≡ stands_twice (map place_of reads.now) }
{
    for (index, read) in reads.iter().enumerate() {
        if is_read_in(read, &reads[index + 1..]) {
            return true;
        }
    }
    false
}

fn may_carry(call: &Call, reads: &[ReadItem]) -> bool
    ensures { result ≡ may_carry call.now reads.now }
{
    call.push_ok && 1 <= call.budget && call.budget <= MOST_BUDGET && !has_twice(reads)
}

fn is_in_turn(call: &Call, item: &Item) -> bool
    ensures { result ≡ is_in_turn call.now item.now }
{
    match pushed_in(item) {
        Some(reads) => may_carry(call, reads.as_slice()),
        None => true,
    }
}

/// Whether there is one item for each call, in turn for it.
pub fn are_in_turn(calls: &[Call], items: &[Item]) -> bool
    ensures { result ≡ are_in_turn calls.now items.now }
{
    match calls {
        [] => items.is_empty(),
        [call, later @ ..] => match items {
            [] => false,
            [item, others @ ..] => is_in_turn(call, item) && are_in_turn(later, others),
        },
    }
}
