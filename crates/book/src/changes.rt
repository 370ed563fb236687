//! The changes that an entry makes to the tables.

ghost use Rattle.std.specs.Prelude.{◌≡◌, ◌≤◌, ◌<◌, ◌+◌, ◌^◌, ◌∷◌, [], length, IfOk};
ghost use Rattle.sp_base.specs.Places.{Place};
ghost use Rattle.records.specs.Records.{record_in};
ghost use Rattle.journal.specs.Folds.{after_changes};
ghost use Rattle.book.specs.Changes.{changes_in};

use journal::Entry;
use records::Tables;
use sp_base::{Change, Memory, Write, Writes};
use std::alloc::Global;

/// An equal change.
fn share_change(alloc: Global, change: &Change) -> Result<Change, Memory>
    ensures { IfOk result (λ shared. shared ≡ change.now) }
{
    match change {
        Change::Put(value) => Ok(Change::Put(value.share(alloc)?)),
        Change::Del => Ok(Change::Del),
    }
}

/// An equal write.
fn share_write(alloc: Global, write: &Write) -> Result<Write, Memory>
    ensures { IfOk result (λ shared. shared ≡ write.now) }
{
    let key = write.key.share(alloc)?;
    let change = share_change(alloc, &write.change)?;
    Ok(Write {
        table: write.table,
        key,
        change,
    })
}

/// Equal writes.
fn share_writes(alloc: Global, writes: &[Write]) -> Result<Writes, Memory>
    ensures { IfOk result (λ shared. shared ≡ writes.now) }
{
    let mut shared = Vec::new(alloc);
    for write in writes {
        let write = share_write(alloc, write)?;
        shared.push(write)?;
    }
    Ok(Writes::from_vec(shared))
}

/// The changes that an entry makes, in their order.
pub fn changes_of(alloc: Global, entry: &Entry) -> Result<Writes, Memory>
    ensures { IfOk result (λ changes. changes ≡ changes_in entry.now) }
{
    match entry {
        Entry::Invoke { writes, .. } => share_writes(alloc, writes.as_slice()),
        Entry::Put {
            table,
            key,
            value,
            ..
        } => {
            let key = key.share(alloc)?;
            let value = value.share(alloc)?;
            let mut changes = Vec::new(alloc);
            changes.push(Write {
                table: *table,
                key,
                change: Change::Put(value),
            })?;
            Ok(Writes::from_vec(changes))
        }
        Entry::Install { .. } => Ok(Writes::new(alloc)),
    }
}

/// Makes one change of entry `n`.
fn make(tables: &mut Tables, n: u64, write: Write)
    requires version { n + 1 < 2 ^ 64 }
    requires room { 0 < tables.old.spare }
    ensures records { (place : Place) → record_in tables.new place ≡ after_changes n (write ∷ []) place (record_in tables.old place) }
    ensures room { tables.old.spare ≤ tables.new.spare + 1 }
{
    let Write { table, key, change } = write;
    match change {
        Change::Put(value) => tables.put(table, key, value, n + 1),
        Change::Del => tables.del(table, &key),
    }
}

/// Makes the changes of entry `n`, for which room was made.
pub fn make_all(tables: &mut Tables, n: u64, writes: Writes)
    requires version { n + 1 < 2 ^ 64 }
    requires room { length writes ≤ tables.old.spare }
    ensures { (place : Place) → record_in tables.new place ≡ after_changes n writes place (record_in tables.old place) }
{
    for write in writes.into_vec() {
        make(tables, n, write);
    }
}
