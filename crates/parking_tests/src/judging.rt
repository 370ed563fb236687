//! Whether a journal is what its calls mean, and whether an answer to a call agrees with it.

use crate::books::TABLE;
use crate::calls::Drawn;
use crate::meaning::{Change, Ends, Meant, Three};
use client_core::CallAnswer;
use journal::{Entry, Home};
use sp_base::{Call, Key, Outcome, ReadItem, Trap, Write};
use wire::Item;

fn is_key(key: &Key, name: u8) -> bool {
    key.bytes() == [name].as_slice()
}

/// Whether this is the read of the record that stands under a key.
fn is_read(read: &ReadItem, name: u8, records: &Three) -> bool {
    read.table == TABLE && is_key(&read.key, name) && read.version == records.at(name).version
}

fn are_reads(reads: &[ReadItem], meant: &Meant, records: &Three) -> bool {
    match reads {
        [one] => meant.second.is_none() && is_read(one, meant.first, records),
        [one, two] => match meant.second {
            Some(second) => { is_read(one, meant.first, records) && is_read(two, second, records) }
            None => false,
        },
        _ => false,
    }
}

/// Whether a write leaves this number under a key, or nothing.
fn is_write(write: &Write, change: &Change) -> bool {
    let is_same = match &write.change {
        sp_base::Change::Put(value) => match change.number {
            Some(number) => value.bytes() == number.to_le_bytes().as_slice(),
            None => false,
        },
        sp_base::Change::Del => change.number.is_none(),
    };
    is_same && write.table == TABLE && is_key(&write.key, change.key)
}

fn are_writes(writes: &[Write], meant: &Meant) -> bool {
    match &meant.change {
        None => writes.is_empty(),
        Some(change) => match writes {
            [write] => is_write(write, change),
            _ => false,
        },
    }
}

/// Whether a run of this call ended so; a call that is done replies its arguments.
fn is_outcome(outcome: &Outcome, call: &Drawn, ends: Ends) -> bool {
    match outcome {
        Outcome::Done(reply) => {
            ends == Ends::Done(reply.code) && reply.bytes.bytes() == [call.key].as_slice()
        }
        Outcome::Trapped(trap) => *trap == Trap::Divide && ends == Ends::Divided,
        Outcome::Killed => ends == Ends::Killed,
    }
}

fn is_same_outcome(one: &Outcome, other: &Outcome) -> bool {
    match one {
        Outcome::Done(reply) => match other {
            Outcome::Done(again) => reply.code == again.code && reply.bytes.is_same(&again.bytes),
            _ => false,
        },
        Outcome::Trapped(trap) => match other {
            Outcome::Trapped(again) => trap == again,
            _ => false,
        },
        Outcome::Killed => matches!(other, Outcome::Killed),
    }
}

/// The call of an entry, as it was drawn.
fn drawn_of(call: &Call) -> Option<Drawn> {
    match call.args.bytes() {
        [key] => Some(Drawn {
            caller: call.caller.number,
            number: call.number.0,
            ext: call.ext.0,
            is_tight: call.budget == 19,
            push_ok: call.push_ok,
            key: *key,
        }),
        _ => None,
    }
}

/// Whether an entry is what its call means on the records then standing. They are then changed as the call means.
fn follows(records: &mut Three, n: u64, entry: &Entry) -> bool {
    let Entry::Invoke {
        call,
        outcome,
        writes,
        reads,
        ..
    } = entry
    else {
        return matches!(entry, Entry::Install { .. });
    };
    let Some(drawn) = drawn_of(call) else {
        return false;
    };
    let meant = records.meant(&drawn);
    let holds = is_outcome(outcome, &drawn, meant.ends)
        && are_reads(reads.as_slice(), &meant, records)
        && are_writes(writes.as_slice(), &meant);
    if let Some(change) = meant.change {
        records.make(n, change);
    }
    holds
}

/// How many of these entries, from the first on, are what their calls mean.
pub fn legal_part(entries: &[Entry]) -> usize {
    let mut records = Three::absent();
    for (n, entry) in entries.iter().enumerate() {
        if !follows(&mut records, n as u64, entry) {
            return n;
        }
    }
    entries.len()
}

/// The version of the record under a key behind so many entries, each of which is what its call means.
fn version_at(entries: &[Entry], at: u64, name: u8) -> u64 {
    let mut records = Three::absent();
    for (n, entry) in entries.iter().enumerate() {
        if (n as u64) < at {
            let _ = follows(&mut records, n as u64, entry);
        }
    }
    records.at(name).version
}

/// Whether an entry is of this call, with this outcome, and ended at its client or not.
fn is_of(entry: &Entry, call: &Drawn, outcome: &Outcome, away: bool) -> bool {
    match entry {
        Entry::Invoke {
            call: kept,
            outcome: ended,
            home,
            ..
        } => {
            let at_home = if away { Home::Client } else { Home::Server };
            drawn_of(kept) == Some(*call) && is_same_outcome(ended, outcome) && *home == at_home
        }
        _ => false,
    }
}

/// What is told of a call, where it agrees with the journal.
#[derive(Clone, Copy, Debug, PartialEq, Eq)]
pub enum Told {
    Committed,
    Conflict,
    Repeated,
}

fn told_if(holds: bool, told: Told) -> Option<Told> {
    if holds { Some(told) } else { None }
}

/// A read and the record now, by their versions and the moments at which they were looked up.
#[derive(Clone, Copy)]
struct Moved {
    read: u64,
    read_at: u64,
    now: u64,
    now_at: u64,
}

/// Whether a record that the call may read has moved so.
fn has_moved(entries: &[Entry], call: &Drawn, key: &Key, moved: Moved) -> bool {
    match key.bytes() {
        [name] => {
            call.may_read(*name)
                && moved.read != moved.now
                && version_at(entries, moved.read_at, *name) == moved.read
                && version_at(entries, moved.now_at, *name) == moved.now
        }
        _ => false,
    }
}

/// What an answer tells of a call that does not repeat its caller, behind a journal of `had` entries.
fn told_once(entries: &[Entry], had: u64, call: &Drawn, answer: &CallAnswer) -> Option<Told> {
    match &answer.item {
        Item::Committed { n, outcome } => {
            let entry = entries.get(*n as usize)?;
            let holds = had <= *n && is_of(entry, call, outcome, answer.away);
            told_if(holds, Told::Committed)
        }
        Item::Conflict {
            table,
            key,
            read,
            read_at,
            now,
            now_at,
        } => {
            let moved = Moved {
                read: *read,
                read_at: *read_at,
                now: *now,
                now_at: *now_at,
            };
            let holds = *table == TABLE && has_moved(entries, call, key, moved);
            told_if(holds, Told::Conflict)
        }
        _ => None,
    }
}

/// What an answer tells of a call, where it agrees with the journal and with whether the caller stands earlier in the batch.
pub fn tells(
    entries: &[Entry],
    had: u64,
    call: &Drawn,
    is_repeated: bool,
    answer: &CallAnswer,
) -> Option<Told> {
    if is_repeated {
        told_if(matches!(answer.item, Item::Repeated), Told::Repeated)
    } else {
        told_once(entries, had, call, answer)
    }
}
