ghost use Rattle.std.specs.Prelude.{◌≡◌, ◌++◌, IfOk, OnOk};
ghost use Rattle.journal.specs.EntryBytes.{bytes_of, home_number};
ghost use Rattle.journal.specs.Sizes.{EntryFits};

use crate::entry::{Entry, Home};
use crate::writing::{put_call, put_key, put_long, put_outcome, put_reads, put_u32, put_writes};
use bytes::BufMut;
use sp_base::{Blob, Memory};
use std::alloc::Global;

fn number_of(home: Home) -> u8
    ensures { result ≡ home_number home }
{
    match home {
        Home::Server => 0,
        Home::Client => 1,
    }
}

/// Adds an entry: its tag, and its fields.
fn put_entry(out: &mut Vec<u8>, entry: &Entry) -> Result<(), Memory>
    requires { EntryFits entry.now }
    ensures { OnOk result (out.new.items ≡ out.old.items ++ bytes_of entry.now) }
{
    match entry {
        Entry::Invoke {
            call,
            outcome,
            writes,
            reads,
            home,
        } => {
            out.put_u8(1)?;
            put_call(out, call)?;
            put_outcome(out, outcome)?;
            put_writes(out, writes.as_slice())?;
            put_reads(out, reads.as_slice())?;
            out.put_u8(number_of(*home))?;
            Ok(())
        }
        Entry::Put {
            tenant,
            table,
            key,
            value,
        } => {
            out.put_u8(2)?;
            put_u32(out, tenant.0)?;
            put_u32(out, table.0)?;
            put_key(out, key)?;
            put_long(out, value.bytes())
        }
        Entry::Install { tenant, text } => {
            out.put_u8(3)?;
            put_u32(out, tenant.0)?;
            put_long(out, text.bytes())
        }
    }
}

/// The bytes of an entry.
pub fn entry_bytes(alloc: Global, entry: &Entry) -> Result<Blob, Memory>
    requires { EntryFits entry.now }
    ensures { IfOk result (λ bytes. bytes ≡ bytes_of entry.now) }
{
    let mut out = Vec::new(alloc);
    put_entry(&mut out, entry)?;
    Ok(Blob::from_vec(out))
}
