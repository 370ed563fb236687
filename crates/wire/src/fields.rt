ghost use Rattle.std.specs.Prelude.{◌≡◌, ◌≤◌};
ghost use Rattle.wire.specs.Readers.{Gives};
ghost use Rattle.wire.specs.Fields.{bytes_at, key_at, long_at, flag_at, opt_at, trap_of, done_at, outcome_at, change_at, write_at, read_at, asked_at};

use crate::faults::ReadFault;
use crate::numbers::{byte, u16_from, u32_any, u64_any};
use sp_base::{
    Asked, Blob, CallNo, Change, ExtNo, Key, KeyFault, Outcome, ReadItem, Reply, TableId, Trap,
    Write,
};
use std::alloc::Global;

/// The first `n` bytes.
fn front(bytes: &[u8], n: usize) -> Result<(&[u8], &[u8]), ReadFault>
    ensures { Gives (λ x. (x.0.now, x.1.now)) result (bytes_at n bytes.now) }
{
    if bytes.len() < n {
        return Err(ReadFault::Bad { left: 0 });
    }
    Ok(bytes.split_at(n))
}

#[tactic(auto, unfolding(crate::specs::Fields::key_at))]
pub fn key(alloc: Global, bytes: &[u8]) -> Result<(Key, &[u8]), ReadFault>
    ensures { Gives (λ x. (x.0, x.1.now)) result (key_at bytes.now) }
{
    let (n, rest) = byte(bytes, 1, 64)?;
    let (found, rest) = front(rest, n as usize)?;
    match Key::of(alloc, found) {
        Ok(key) => Ok((key, rest)),
        Err(KeyFault::Memory) => Err(ReadFault::Memory),
        Err(KeyFault::Size) => unreachable!(),
    }
}

/// Bytes with a length from `least` to `most`, in two bytes before them.
#[tactic(auto, unfolding(crate::specs::Fields::long_at))]
pub fn blob(alloc: Global, bytes: &[u8], least: u16, most: u16) -> Result<(Blob, &[u8]), ReadFault>
    requires { least ≤ most }
    ensures { Gives (λ x. (x.0, x.1.now)) result (long_at least most bytes.now) }
{
    let (n, rest) = u16_from(bytes, least, most)?;
    let (found, rest) = front(rest, n as usize)?;
    Ok((Blob::of(alloc, found)?, rest))
}

#[tactic(auto, unfolding(crate::specs::Fields::flag_at))]
pub fn flag(bytes: &[u8]) -> Result<(bool, &[u8]), ReadFault>
    ensures { Gives (λ x. (x.0, x.1.now)) result (flag_at bytes.now) }
{
    let (b, rest) = byte(bytes, 0, 1)?;
    Ok((b == 1, rest))
}

#[tactic(auto, unfolding(crate::specs::Fields::opt_at))]
pub fn optional(alloc: Global, bytes: &[u8]) -> Result<(Option<Blob>, &[u8]), ReadFault>
    ensures { Gives (λ x. (x.0, x.1.now)) result (opt_at bytes.now) }
{
    match bytes {
        [] => Err(ReadFault::Bad { left: 0 }),
        [0, rest @ ..] => Ok((None, rest)),
        [1, rest @ ..] => {
            let (value, rest) = blob(alloc, rest, 0, 4096)?;
            Ok((Some(value), rest))
        }
        [_, ..] => Err(ReadFault::Bad { left: bytes.len() }),
    }
}

fn trap(n: u8) -> Trap
    ensures { result ≡ trap_of n }
{
    match n {
        2 => Trap::Divide,
        3 => Trap::Size,
        4 => Trap::Denied,
        5 => Trap::Width,
        _ => Trap::Range,
    }
}

#[tactic(auto, unfolding(crate::specs::Fields::done_at))]
fn reply(alloc: Global, bytes: &[u8]) -> Result<(Outcome, &[u8]), ReadFault>
    ensures { Gives (λ x. (x.0, x.1.now)) result (done_at bytes.now) }
{
    let (code, rest) = u64_any(bytes)?;
    let (bytes, rest) = blob(alloc, rest, 0, 4096)?;
    Ok((Outcome::Done(Reply { code, bytes }), rest))
}

#[tactic(auto, unfolding(crate::specs::Fields::outcome_at))]
pub fn outcome(alloc: Global, bytes: &[u8]) -> Result<(Outcome, &[u8]), ReadFault>
    ensures { Gives (λ x. (x.0, x.1.now)) result (outcome_at bytes.now) }
{
    match bytes {
        [] => Err(ReadFault::Bad { left: 0 }),
        [0, rest @ ..] => reply(alloc, rest),
        [1, rest @ ..] => {
            let (n, rest) = byte(rest, 1, 5)?;
            Ok((Outcome::Trapped(trap(n)), rest))
        }
        [2, rest @ ..] => Ok((Outcome::Killed, rest)),
        [_, ..] => Err(ReadFault::Bad { left: bytes.len() }),
    }
}

#[tactic(auto, unfolding(crate::specs::Fields::change_at))]
fn change(alloc: Global, bytes: &[u8]) -> Result<(Change, &[u8]), ReadFault>
    ensures { Gives (λ x. (x.0, x.1.now)) result (change_at bytes.now) }
{
    let (value, rest) = optional(alloc, bytes)?;
    match value {
        None => Ok((Change::Del, rest)),
        Some(value) => Ok((Change::Put(value), rest)),
    }
}

#[tactic(auto, unfolding(crate::specs::Fields::write_at))]
pub fn write(alloc: Global, bytes: &[u8]) -> Result<(Write, &[u8]), ReadFault>
    ensures { Gives (λ x. (x.0, x.1.now)) result (write_at bytes.now) }
{
    let (table, rest) = u32_any(bytes)?;
    let (key, rest) = key(alloc, rest)?;
    let (change, rest) = change(alloc, rest)?;
    let table = TableId(table);
    Ok((Write { table, key, change }, rest))
}

#[tactic(auto, unfolding(crate::specs::Fields::read_at))]
pub fn read(alloc: Global, bytes: &[u8]) -> Result<(ReadItem, &[u8]), ReadFault>
    ensures { Gives (λ x. (x.0, x.1.now)) result (read_at bytes.now) }
{
    let (table, rest) = u32_any(bytes)?;
    let (key, rest) = key(alloc, rest)?;
    let (version, rest) = u64_any(rest)?;
    let (read_at, rest) = u64_any(rest)?;
    let (value, rest) = optional(alloc, rest)?;
    let table = TableId(table);
    Ok((
        ReadItem {
            table,
            key,
            version,
            read_at,
            value,
        },
        rest,
    ))
}

#[tactic(auto, unfolding(crate::specs::Fields::asked_at))]
pub fn asked(alloc: Global, bytes: &[u8]) -> Result<(Asked, &[u8]), ReadFault>
    ensures { Gives (λ x. (x.0, x.1.now)) result (asked_at bytes.now) }
{
    let (caller, rest) = u32_any(bytes)?;
    let (number, rest) = u64_any(rest)?;
    let (ext, rest) = u32_any(rest)?;
    let (budget, rest) = u32_any(rest)?;
    let (push_ok, rest) = flag(rest)?;
    let (args, rest) = blob(alloc, rest, 0, 1024)?;
    let number = CallNo(number);
    let ext = ExtNo(ext);
    Ok((
        Asked {
            caller,
            number,
            ext,
            budget,
            push_ok,
            args,
        },
        rest,
    ))
}
