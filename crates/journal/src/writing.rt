//! The fields of an entry as bytes, behind one another.

ghost use Rattle.std.specs.Prelude.{◌≡◌, ◌<◌, ◌≤◌, ◌++◌, length, OnOk};
ghost use Rattle.std.specs.List.{flat_map, AllByRecursion};
ghost use Rattle.sp_base.specs.Limits.{IsArguments};
ghost use Rattle.sp_base.specs.Spelling as spelling;
ghost use Rattle.ext_mean.specs.Outcomes.{ChangeFits, PutFits, ReplyFits};
ghost use Rattle.journal.specs.EntryBytes.{call_bytes, read_bytes, reads_bytes};

use bytes::BufMut;
use sp_base::{Call, Change, Key, Memory, Outcome, ReadItem, Trap, Write};

#[tactic(auto, unfolding(sp_base::specs::Spelling::u16))]
fn put_u16(out: &mut Vec<u8>, n: u16) -> Result<(), Memory>
    ensures { OnOk result (out.new.items ≡ out.old.items ++ spelling.u16 n) }
{
    out.put_u16(n)?;
    Ok(())
}

#[tactic(auto, unfolding(sp_base::specs::Spelling::u32))]
pub fn put_u32(out: &mut Vec<u8>, n: u32) -> Result<(), Memory>
    ensures { OnOk result (out.new.items ≡ out.old.items ++ spelling.u32 n) }
{
    out.put_u32(n)?;
    Ok(())
}

#[tactic(auto, unfolding(sp_base::specs::Spelling::u64))]
fn put_u64(out: &mut Vec<u8>, n: u64) -> Result<(), Memory>
    ensures { OnOk result (out.new.items ≡ out.old.items ++ spelling.u64 n) }
{
    out.put_u64(n)?;
    Ok(())
}

/// Adds a key behind its length.
pub fn put_key(out: &mut Vec<u8>, name: &Key) -> Result<(), Memory>
    ensures { OnOk result (out.new.items ≡ out.old.items ++ spelling.key name.now) }
{
    let bytes = name.bytes();
    out.put_u8(bytes.len() as u8)?;
    out.put_slice(bytes)?;
    Ok(())
}

/// Adds bytes behind their length in two bytes.
pub fn put_long(out: &mut Vec<u8>, bytes: &[u8]) -> Result<(), Memory>
    requires { length bytes.now < 65536 }
    ensures { OnOk result (out.new.items ≡ out.old.items ++ spelling.long bytes.now) }
{
    put_u16(out, bytes.len() as u16)?;
    out.put_slice(bytes)?;
    Ok(())
}

fn put_flag(out: &mut Vec<u8>, is_set: bool) -> Result<(), Memory>
    ensures { OnOk result (out.new.items ≡ out.old.items ++ spelling.flag is_set) }
{
    if is_set {
        out.put_u8(1)?;
    } else {
        out.put_u8(0)?;
    }
    Ok(())
}

fn number_of(trap: Trap) -> u8
    ensures { result ≡ spelling.trap_number trap }
{
    trap as u8
}

/// Adds an outcome: its tag, and a reply or a trap's number.
pub fn put_outcome(out: &mut Vec<u8>, ended: &Outcome) -> Result<(), Memory>
    requires { ReplyFits ended.now }
    ensures { OnOk result (out.new.items ≡ out.old.items ++ spelling.outcome ended.now) }
{
    match ended {
        Outcome::Done(reply) => {
            out.put_u8(0)?;
            put_u64(out, reply.code)?;
            put_long(out, reply.bytes.bytes())
        }
        Outcome::Trapped(trap) => {
            out.put_u8(1)?;
            out.put_u8(number_of(*trap))?;
            Ok(())
        }
        Outcome::Killed => {
            out.put_u8(2)?;
            Ok(())
        }
    }
}

fn put_change(out: &mut Vec<u8>, changed: &Change) -> Result<(), Memory>
    requires { PutFits changed.now }
    ensures { OnOk result (out.new.items ≡ out.old.items ++ spelling.change changed.now) }
{
    match changed {
        Change::Del => {
            out.put_u8(0)?;
            Ok(())
        }
        Change::Put(value) => {
            out.put_u8(1)?;
            put_long(out, value.bytes())
        }
    }
}

fn put_write(out: &mut Vec<u8>, written: &Write) -> Result<(), Memory>
    requires { ChangeFits written.now }
    ensures { OnOk result (out.new.items ≡ out.old.items ++ spelling.write written.now) }
{
    put_u32(out, written.table.0)?;
    put_key(out, &written.key)?;
    put_change(out, &written.change)
}

fn each_write(out: &mut Vec<u8>, list: &[Write]) -> Result<(), Memory>
    requires { AllByRecursion ChangeFits list.now }
    ensures { OnOk result (out.new.items ≡ out.old.items ++ flat_map spelling.write list.now) }
{
    for next in list {
        put_write(out, next)?;
    }
    Ok(())
}

/// Adds writes behind their count.
pub fn put_writes(out: &mut Vec<u8>, list: &[Write]) -> Result<(), Memory>
    requires few { length list.now ≤ 255 }
    requires values { AllByRecursion ChangeFits list.now }
    ensures { OnOk result (out.new.items ≡ out.old.items ++ spelling.writes list.now) }
{
    out.put_u8(list.len() as u8)?;
    each_write(out, list)
}

fn put_read(out: &mut Vec<u8>, seen: &ReadItem) -> Result<(), Memory>
    ensures { OnOk result (out.new.items ≡ out.old.items ++ read_bytes seen.now) }
{
    put_u32(out, seen.table.0)?;
    put_key(out, &seen.key)?;
    put_u64(out, seen.version)
}

fn each_read(out: &mut Vec<u8>, list: &[ReadItem]) -> Result<(), Memory>
    ensures { OnOk result (out.new.items ≡ out.old.items ++ flat_map read_bytes list.now) }
{
    for next in list {
        put_read(out, next)?;
    }
    Ok(())
}

/// Adds reads behind their count.
pub fn put_reads(out: &mut Vec<u8>, list: &[ReadItem]) -> Result<(), Memory>
    requires { length list.now ≤ 65535 }
    ensures { OnOk result (out.new.items ≡ out.old.items ++ reads_bytes list.now) }
{
    put_u16(out, list.len() as u16)?;
    each_read(out, list)
}

/// Adds what a client asked, with its tenant.
pub fn put_call(out: &mut Vec<u8>, call: &Call) -> Result<(), Memory>
    requires { IsArguments call.now.args }
    ensures { OnOk result (out.new.items ≡ out.old.items ++ call_bytes call.now) }
{
    put_u32(out, call.caller.tenant.0)?;
    put_u32(out, call.caller.number)?;
    put_u64(out, call.number.0)?;
    put_u32(out, call.ext.0)?;
    put_u32(out, call.budget)?;
    put_flag(out, call.push_ok)?;
    put_long(out, call.args.bytes())
}
