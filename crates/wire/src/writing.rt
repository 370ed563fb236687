ghost use Rattle.std.specs.Prelude.{◌≡◌, ◌<◌, ◌≤◌, ◌++◌, length, OnOk};
ghost use Rattle.sp_base.specs.Spelling.{asked, change, flag, FitsAsked, FitsChange, FitsOpt, FitsOutcome, FitsRead, FitsWrite, key, long, opt, outcome, read, trap_number, u16, u32, u64, write};

use bytes::BufMut;
use sp_base::{Asked, Blob, Change, Key, Memory, Outcome, ReadItem, Trap, Write};

/// Adds a number of two bytes.
#[tactic(auto, unfolding(sp_base::specs::Spelling::u16))]
pub fn put_u16(out: &mut Vec<u8>, n: u16) -> Result<(), Memory>
    ensures { OnOk result (out.new.items ≡ out.old.items ++ u16 n) }
{
    out.put_u16(n)?;
    Ok(())
}

/// Adds a number of four bytes.
#[tactic(auto, unfolding(sp_base::specs::Spelling::u32))]
pub fn put_u32(out: &mut Vec<u8>, n: u32) -> Result<(), Memory>
    ensures { OnOk result (out.new.items ≡ out.old.items ++ u32 n) }
{
    out.put_u32(n)?;
    Ok(())
}

/// Adds a number of eight bytes.
#[tactic(auto, unfolding(sp_base::specs::Spelling::u64))]
pub fn put_u64(out: &mut Vec<u8>, n: u64) -> Result<(), Memory>
    ensures { OnOk result (out.new.items ≡ out.old.items ++ u64 n) }
{
    out.put_u64(n)?;
    Ok(())
}

/// Adds two numbers of eight bytes.
pub fn put_two(out: &mut Vec<u8>, first: u64, second: u64) -> Result<(), Memory>
    ensures { OnOk result (out.new.items ≡ out.old.items ++ (u64 first ++ u64 second)) }
{
    put_u64(out, first)?;
    put_u64(out, second)
}

/// Adds a count of four bytes, and a moment of eight.
pub fn put_count(out: &mut Vec<u8>, count: u32, at: u64) -> Result<(), Memory>
    ensures { OnOk result (out.new.items ≡ out.old.items ++ (u32 count ++ u64 at)) }
{
    put_u32(out, count)?;
    put_u64(out, at)
}

/// Adds a key behind its length.
pub fn put_key(out: &mut Vec<u8>, name: &Key) -> Result<(), Memory>
    ensures { OnOk result (out.new.items ≡ out.old.items ++ key name.now) }
{
    let bytes = name.bytes();
    out.put_u8(bytes.len() as u8)?;
    out.put_slice(bytes)?;
    Ok(())
}

/// Adds bytes behind their length in two bytes.
pub fn put_long(out: &mut Vec<u8>, bytes: &[u8]) -> Result<(), Memory>
    requires { length bytes.now < 65536 }
    ensures { OnOk result (out.new.items ≡ out.old.items ++ long bytes.now) }
{
    put_u16(out, bytes.len() as u16)?;
    out.put_slice(bytes)?;
    Ok(())
}

fn put_flag(out: &mut Vec<u8>, is_set: bool) -> Result<(), Memory>
    ensures { OnOk result (out.new.items ≡ out.old.items ++ flag is_set) }
{
    if is_set {
        out.put_u8(1)?;
    } else {
        out.put_u8(0)?;
    }
    Ok(())
}

/// Adds 0, or 1 and a value.
pub fn put_optional(out: &mut Vec<u8>, value: &Option<Blob>) -> Result<(), Memory>
    requires { FitsOpt value.now }
    ensures { OnOk result (out.new.items ≡ out.old.items ++ opt value.now) }
{
    match value {
        None => {
            out.put_u8(0)?;
            Ok(())
        }
        Some(value) => {
            out.put_u8(1)?;
            put_long(out, value.bytes())
        }
    }
}

fn number_of(trap: Trap) -> u8
    ensures { result ≡ trap_number trap }
{
    trap as u8
}

pub fn put_outcome(out: &mut Vec<u8>, ended: &Outcome) -> Result<(), Memory>
    requires { FitsOutcome ended.now }
    ensures { OnOk result (out.new.items ≡ out.old.items ++ outcome ended.now) }
{
    match ended {
        Outcome::Done(reply) => {
            out.put_u8(0)?;
            put_u64(out, reply.code)?;
            put_long(out, reply.bytes.bytes())
        }
        Outcome::Trapped(trap) => {
            out.put_u8(1)?;
            out.put_u8(number_of(*trap))?;
            Ok(())
        }
        Outcome::Killed => {
            out.put_u8(2)?;
            Ok(())
        }
    }
}

fn put_change(out: &mut Vec<u8>, changed: &Change) -> Result<(), Memory>
    requires { FitsChange changed.now }
    ensures { OnOk result (out.new.items ≡ out.old.items ++ change changed.now) }
{
    match changed {
        Change::Del => {
            out.put_u8(0)?;
            Ok(())
        }
        Change::Put(value) => {
            out.put_u8(1)?;
            put_long(out, value.bytes())
        }
    }
}

pub fn put_write(out: &mut Vec<u8>, written: &Write) -> Result<(), Memory>
    requires { FitsWrite written.now }
    ensures { OnOk result (out.new.items ≡ out.old.items ++ write written.now) }
{
    put_u32(out, written.table.0)?;
    put_key(out, &written.key)?;
    put_change(out, &written.change)
}

pub fn put_read(out: &mut Vec<u8>, seen: &ReadItem) -> Result<(), Memory>
    requires { FitsRead seen.now }
    ensures { OnOk result (out.new.items ≡ out.old.items ++ read seen.now) }
{
    put_u32(out, seen.table.0)?;
    put_key(out, &seen.key)?;
    put_u64(out, seen.version)?;
    put_u64(out, seen.read_at)?;
    put_optional(out, &seen.value)
}

pub fn put_asked(out: &mut Vec<u8>, call: &Asked) -> Result<(), Memory>
    requires { FitsAsked call.now }
    ensures { OnOk result (out.new.items ≡ out.old.items ++ asked call.now) }
{
    put_u32(out, call.caller)?;
    put_u64(out, call.number.0)?;
    put_u32(out, call.ext.0)?;
    put_u32(out, call.budget)?;
    put_flag(out, call.push_ok)?;
    put_long(out, call.args.bytes())
}
