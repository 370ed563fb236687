//! Copies of what was kept of a call in the server, for its client.

ghost use Rattle.std.specs.Prelude.{◌≡◌, IfOk};
ghost use Rattle.clients.specs.Client.{allowed};

use sp_base::{Blob, Call, Memory, ReadItem, Reads};
use std::alloc::Global;

/// An equal call, as its client asked it: what is pushed was allowed to be.
pub fn allowed_call(alloc: Global, call: &Call) -> Result<Call, Memory>
    ensures { IfOk result (λ copy. copy ≡ allowed call.now) }
{
    Ok(Call {
        caller: call.caller,
        number: call.number,
        ext: call.ext,
        budget: call.budget,
        push_ok: true,
        args: call.args.share(alloc)?,
    })
}

/// An equal value.
pub fn share_value(alloc: Global, value: &Option<Blob>) -> Result<Option<Blob>, Memory>
    ensures { IfOk result (λ copy. copy ≡ value.now) }
{
    match value {
        Some(bytes) => Ok(Some(bytes.share(alloc)?)),
        None => Ok(None),
    }
}

/// An equal read.
fn share_read(alloc: Global, read: &ReadItem) -> Result<ReadItem, Memory>
    ensures { IfOk result (λ copy. copy ≡ read.now) }
{
    Ok(ReadItem {
        table: read.table,
        key: read.key.share(alloc)?,
        version: read.version,
        read_at: read.read_at,
        value: share_value(alloc, &read.value)?,
    })
}

/// Equal reads, in order.
pub fn share_reads(alloc: Global, reads: &[ReadItem]) -> Result<Reads, Memory>
    ensures { IfOk result (λ copies. copies ≡ reads.now) }
{
    let mut copies = Reads::new(alloc);
    for read in reads {
        copies.push(share_read(alloc, read)?)?;
    }
    Ok(copies)
}
