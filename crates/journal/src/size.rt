ghost use Rattle.std.specs.Prelude.{◌≡◌, ◌≤◌, ◌+◌, ◌*◌, length, sum_by};
ghost use Rattle.sp_base.specs.declared.numbers.TenantId.{TenantId};
ghost use Rattle.std.specs.List.{AllByRecursion};
ghost use Rattle.ext_mean.specs.Outcomes.{ReplyFits, ChangeFits};
ghost use Rattle.journal.specs.Sizes.{size_of_entry, write_size, read_size, outcome_size, EntryFits};

use crate::entry::Entry;
use sp_base::{Change, MOST_TEXT, Outcome, ReadItem, Write};

fn outcome_bytes(outcome: &Outcome) -> u64
    requires { ReplyFits outcome.now }
    ensures size { result ≡ outcome_size outcome.now }
    ensures small { result ≤ 4107 }
{
    match outcome {
        Outcome::Done(reply) => 11 + reply.bytes.len() as u64,
        Outcome::Trapped(_) => 2,
        Outcome::Killed => 1,
    }
}

fn write_bytes(write: &Write) -> u64
    requires { ChangeFits write.now }
    ensures size { result ≡ write_size write.now }
    ensures small { result ≤ 4168 }
{
    let change = match &write.change {
        Change::Put(value) => 3 + value.len() as u64,
        Change::Del => 1,
    };
    5 + write.key.bytes().len() as u64 + change
}

fn writes_bytes(writes: &[Write]) -> u64
    requires few { length writes.now ≤ 255 }
    requires values { AllByRecursion ChangeFits writes.now }
    ensures size { result ≡ sum_by write_size writes.now }
    ensures small { result ≤ 4168 * length writes.now }
{
    let mut total = 0;
    for write in writes {
        total += write_bytes(write);
    }
    total
}

fn reads_bytes(reads: &[ReadItem]) -> u64
    requires { length reads.now ≤ 65535 }
    ensures size { result ≡ sum_by read_size reads.now }
    ensures small { result ≤ 77 * length reads.now }
{
    let mut total = 0;
    for read in reads {
        total += 13 + read.key.bytes().len() as u64;
    }
    total
}

/// The bytes of the entry of an installation.
pub fn install_size(text: &[u8]) -> u64
    requires { length text.now ≤ MOST_TEXT }
    ensures size { (tenant : TenantId) → result ≡ size_of_entry (Entry.Install tenant text.now) }
    ensures small { result ≤ 10000000 }
{
    7 + text.len() as u64
}

/// The bytes of an entry, counted as the journal counts them.
pub fn entry_size(entry: &Entry) -> u64
    requires { EntryFits entry.now }
    ensures size { result ≡ size_of_entry entry.now }
    ensures small { result ≤ 10000000 }
{
    match entry {
        Entry::Invoke {
            call,
            outcome,
            writes,
            reads,
            ..
        } => {
            let bytes = 32 + call.args.len() as u64 + outcome_bytes(outcome);
            bytes + writes_bytes(writes.as_slice()) + reads_bytes(reads.as_slice())
        }
        Entry::Put { key, value, .. } => 12 + key.bytes().len() as u64 + value.len() as u64,
        Entry::Install { text, .. } => install_size(text.bytes()),
    }
}
