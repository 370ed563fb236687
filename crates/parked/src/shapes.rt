//! What the writes of a run are looked at for, one test a function.

ghost use Rattle.std.specs.Prelude.{◌≡◌, map};
ghost use Rattle.std.specs.List.{list_any};
ghost use Rattle.sp_base.specs.Places.{same_place};
ghost use Rattle.sp_base.specs.RightsList.{can_write};
ghost use Rattle.ext_mean.specs.MeaningValues.{place_changed};
ghost use Rattle.parked.specs.Taking.{changes_unfinished, foreign_in, stands_twice};

use crate::refused::Refused;
use sp_base::{Level, Outcome, Rights, TableId, Write};

/// Whether two writes are of one place.
fn is_same_place(one: &Write, other: &Write) -> bool
    ensures { result ≡ same_place (place_changed one.now) (place_changed other.now) }
{
    one.table == other.table && one.key.is_same(&other.key)
}

/// Whether the place of a write is that of one of these.
fn is_changed_in(write: &Write, writes: &[Write]) -> bool
    ensures { result ≡ list_any (same_place (place_changed write.now)) (map place_changed writes.now) }
{
    match writes {
        [] => false,
        [other, rest @ ..] => is_same_place(write, other) || is_changed_in(write, rest),
    }
}

/// Whether a place is changed twice.
pub fn has_twice(writes: &[Write]) -> bool
    ensures { result ≡ stands_twice (map place_changed writes.now) }
{
    match writes {
        [] => false,
        [write, rest @ ..] => is_changed_in(write, rest) || has_twice(rest),
    }
}

/// Whether there are writes though the run did not come to its end.
pub fn is_unfinished(outcome: &Outcome, writes: &[Write]) -> bool
    ensures { result ≡ changes_unfinished outcome.now writes.now }
{
    match outcome {
        Outcome::Done(_) => false,
        Outcome::Trapped(_) | Outcome::Killed => !writes.is_empty(),
    }
}

fn is_writable(rights: &Rights, table: TableId) -> bool
    ensures { result ≡ can_write rights.now table.0 }
{
    match rights.level(u64::from(table.0)) {
        Level::Nothing | Level::Read => false,
        Level::Write => true,
    }
}

/// The first write in a table that may not be written, as a refusal.
pub fn foreign(rights: &Rights, writes: &[Write]) -> Option<Refused>
    ensures { result ≡ foreign_in rights.now writes.now }
{
    for write in writes {
        if !is_writable(rights, write.table) {
            return Some(Refused::Foreign(write.table));
        }
    }
    None
}
