//! Where a place stands among the reads, in the order of their places.

ghost use Rattle.std.specs.Prelude.{◌≡◌, ◌<◌, ◌≤◌, IfOk, IfErr, None, length, map};
ghost use Rattle.std.specs.List.{IsDistinct};
ghost use Rattle.std.specs.Option.{option_copied};
ghost use Rattle.sp_base.specs.Places.{same_place};
ghost use Rattle.ext_mean.specs.Laws.{place_in};
ghost use Rattle.ext_mean.specs.Views.{place_of};
ghost use Rattle.rw_set.specs.ReadLists.{read_of};
ghost use Rattle.rw_set.specs.Order.{BelongsAt, IsOrder, StandsAt, compare_ranks, rank, rank_at};

use sp_base::{Key, ReadItem, TableId};
use std::cmp::Ordering;

/// How a read's place compares with another: by the table, and then by the key's bytes.
fn compare(read: &ReadItem, table: TableId, key: &Key) -> Ordering
    ensures { result ≡ compare_ranks (rank (place_of read.now)) (rank (place_in table key.now)) }
{
    read.table
        .0
        .cmp(&table.0)
        .then(read.key.bytes().cmp(&key.bytes()))
}

/// The read at a position, compared with a place.
fn compare_at(reads: &[ReadItem], position: u32, table: TableId, key: &Key) -> Ordering
    requires { position < length reads.now }
    ensures { result ≡ compare_ranks (rank_at reads.now position) (rank (place_in table key.now)) }
{
    compare(&reads[position as usize], table, key)
}

/// Where a place's read stands in the order, or where one would.
pub fn search(reads: &[ReadItem], order: &[u32], table: TableId, key: &Key) -> Result<usize, usize>
    requires { IsOrder reads.now order.now }
    ensures found { IfOk result (λ k. StandsAt reads.now order.now (rank (place_in table key.now)) k) }
    ensures absent { IfErr result (λ k. BelongsAt reads.now order.now (rank (place_in table key.now)) k) }
{
    let mut low = 0;
    let mut high = order.len();
    while low < high {
        let middle = low + (high - low) / 2;
        match compare_at(reads, order[middle], table, key) {
            Ordering::Less => low = middle + 1,
            Ordering::Equal => return Ok(middle),
            Ordering::Greater => high = middle,
        }
    }
    Err(low)
}

/// Where a place without a read belongs in the order.
pub fn place_for(reads: &[ReadItem], order: &[u32], table: TableId, key: &Key) -> usize
    requires ordered { IsOrder reads.now order.now }
    requires new { read_of reads.now (place_in table key.now) ≡ None }
    ensures { BelongsAt reads.now order.now (rank (place_in table key.now)) result }
{
    match search(reads, order, table, key) {
        Ok(_) => unreachable!(),
        Err(at) => at,
    }
}

/// The read at a place, where there is one.
pub fn find<'a>(
    reads: &'a [ReadItem],
    order: &[u32],
    table: TableId,
    key: &Key,
) -> Option<&'a ReadItem>
    requires ordered { IsOrder reads.now order.now }
    requires distinct { IsDistinct same_place (map place_of reads.now) }
    ensures { option_copied result ≡ read_of reads.now (place_in table key.now) }
{
    match search(reads, order, table, key) {
        Ok(k) => Some(&reads[order[k] as usize]),
        Err(_) => None,
    }
}
