ghost use Rattle.std.specs.Prelude.{◌≡◌, ◌≤◌, ◌++◌, OnOk};
ghost use Rattle.wire.specs.Answers.{FitsItem, item, item_fields, item_tag};

use crate::items::Item;
use crate::writing::{put_count, put_key, put_outcome, put_two, put_u32, put_u64};
use crate::writing_lists::put_reads;
use bytes::BufMut;
use sp_base::Memory;

fn tag_of(ended: &Item) -> u8
    ensures { result ≡ item_tag ended.now }
{
    match ended {
        Item::Committed { .. } => 0,
        Item::Stale { .. } => 1,
        Item::Conflict { .. } => 2,
        Item::Pushed { .. } => 3,
        Item::Full { .. } => 4,
        Item::Busy { .. } => 5,
        Item::Repeated => 6,
        Item::NoExtension { .. } => 7,
        Item::BadBudget => 8,
        Item::Memory => 9,
        Item::Foreign { .. } => 10,
        Item::Shape { .. } => 11,
        Item::Lied => 12,
        Item::NotParked => 13,
    }
}

/// Adds an item: its tag, and its fields.
pub fn put_item(out: &mut Vec<u8>, ended: &Item) -> Result<(), Memory>
    requires { FitsItem ended.now }
    ensures { OnOk result (out.new.items ≡ out.old.items ++ item ended.now) }
{
    out.put_u8(tag_of(ended))?;
    put_item_fields(out, ended)
}

fn put_item_fields(out: &mut Vec<u8>, ended: &Item) -> Result<(), Memory>
    requires { FitsItem ended.now }
    ensures { OnOk result (out.new.items ≡ out.old.items ++ item_fields ended.now) }
{
    match ended {
        Item::Committed { n, outcome } => {
            put_u64(out, *n)?;
            put_outcome(out, outcome)
        }
        Item::Stale { last, at } => put_two(out, *last, *at),
        Item::Conflict {
            table,
            key,
            read,
            read_at,
            now,
            now_at,
        } => {
            put_u32(out, table.0)?;
            put_key(out, key)?;
            put_u64(out, *read)?;
            put_u64(out, *read_at)?;
            put_two(out, *now, *now_at)
        }
        Item::Pushed { load, spent, reads } => {
            put_u32(out, *load)?;
            put_u32(out, *spent)?;
            put_reads(out, reads)
        }
        Item::Full { at } => put_u64(out, *at),
        Item::Busy { number } => put_u64(out, number.0),
        Item::NoExtension { count, at } => put_count(out, *count, *at),
        Item::Foreign { table } => put_u32(out, table.0),
        Item::Shape { code } => {
            out.put_u8(*code)?;
            Ok(())
        }
        Item::Repeated | Item::BadBudget | Item::Memory | Item::Lied | Item::NotParked => Ok(()),
    }
}
