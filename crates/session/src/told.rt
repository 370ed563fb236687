//! How answers of the book are told to the client, and what they show of the journal.

ghost use Rattle.std.specs.Prelude.{◌≡◌};
ghost use Rattle.session.specs.Batches.{commit_item};
ghost use Rattle.session.specs.Seeing.{AllCounted, IsCounted};
ghost use Rattle.session.specs.States.{seen_in_item, seen_in_items, seen_in_reads};
ghost use Rattle.session.specs.Steps.{install_told, put_told, refused_item};

use book::{Commit, Install, Put};
use parked::Refused;
use sp_base::ReadItem;
use wire::{InstallAnswer, Item, PutAnswer};

pub fn put_told(put: Put) -> PutAnswer
    ensures { result ≡ put_told put }
{
    match put {
        Put::Done(n) => PutAnswer::Done(n),
        Put::Denied => PutAnswer::Denied,
        Put::Full { at } => PutAnswer::Full { at },
        Put::Memory => PutAnswer::Memory,
    }
}

pub fn install_told(install: Install) -> InstallAnswer
    ensures { result ≡ install_told install }
{
    match install {
        Install::Installed { n, ext } => InstallAnswer::Done { n, ext },
        Install::Full { at } => InstallAnswer::Full { at },
        Install::Memory => InstallAnswer::Memory,
    }
}

pub fn commit_item(commit: Commit) -> Item
    ensures { result ≡ commit_item commit }
{
    match commit {
        Commit::Committed { n, outcome } => Item::Committed { n, outcome },
        Commit::Stale { last, at } => Item::Stale { last, at },
        Commit::Conflict {
            table,
            key,
            read,
            read_at,
            now,
            now_at,
        } => Item::Conflict {
            table,
            key,
            read,
            read_at,
            now,
            now_at,
        },
        Commit::Full { at } => Item::Full { at },
        Commit::Memory => Item::Memory,
    }
}

/// How it is told that what a client sent is not taken.
pub fn refused_item(why: Refused) -> Item
    ensures { result ≡ refused_item why }
{
    match why {
        Refused::Shape(code) => Item::Shape { code },
        Refused::Foreign(table) => Item::Foreign { table },
        Refused::Memory => Item::Memory,
    }
}

/// The number of entries seen, after the moments of some reads.
fn seen_in_reads(seen: u64, reads: &[ReadItem]) -> u64
    ensures { result ≡ seen_in_reads seen reads.now }
{
    let mut latest = seen;
    for read in reads {
        latest = latest.max(read.read_at);
    }
    latest
}

/// The number of entries seen, after an item that shows an entry below the greatest number.
pub fn seen_in_item(seen: u64, item: &Item) -> u64
    ensures { IsCounted item.now → result ≡ seen_in_item seen item.now }
{
    match item {
        Item::Committed { n, .. } => seen.max(n.saturating_add(1)),
        Item::Stale { at, .. } | Item::Full { at } | Item::NoExtension { at, .. } => seen.max(*at),
        Item::Conflict {
            read_at,
            now_at,
            ..
        } => seen.max(*read_at).max(*now_at),
        Item::Pushed { reads, .. } => seen_in_reads(seen, reads.as_slice()),
        Item::Busy { .. }
        | Item::Repeated
        | Item::BadBudget
        | Item::Memory
        | Item::Foreign { .. }
        | Item::Shape { .. }
        | Item::Lied
        | Item::NotParked => seen,
    }
}

/// The number of entries seen, after all of these items.
pub fn seen_in_items(seen: u64, items: &[Item]) -> u64
    ensures { AllCounted items.now → result ≡ seen_in_items seen items.now }
{
    let mut latest = seen;
    for item in items {
        latest = seen_in_item(latest, item);
    }
    latest
}
