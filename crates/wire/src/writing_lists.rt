ghost use Rattle.std.specs.Prelude.{◌≡◌, ◌≤◌, ◌++◌, length, OnOk};
ghost use Rattle.std.specs.List.{flat_map, AllByRecursion};
ghost use Rattle.sp_base.specs.Spelling.{asked, asked_calls, FitCalls, FitReads, FitRights, FitWrites, FitsAsked, FitsRead, FitsWrite, level_number, read, reads, right, rights, write, writes};
ghost use Rattle.wire.specs.Answers.{FitItems, FitsBatchItem, item, items_of};

use crate::items::{Item, Items};
use crate::requests::Calls;
use crate::writing::{put_asked, put_read, put_u16, put_u32, put_write};
use crate::writing_items::put_item;
use bytes::BufMut;
use sp_base::{Asked, Level, Memory, ReadItem, Reads, Rights, TableId, Write, Writes};

fn each_write(out: &mut Vec<u8>, list: &[Write]) -> Result<(), Memory>
    requires { AllByRecursion FitsWrite list.now }
    ensures { OnOk result (out.new.items ≡ out.old.items ++ flat_map write list.now) }
{
    for next in list {
        put_write(out, next)?;
    }
    Ok(())
}

/// Adds writes behind their count.
pub fn put_writes(out: &mut Vec<u8>, list: &Writes) -> Result<(), Memory>
    requires { FitWrites list.now }
    ensures { OnOk result (out.new.items ≡ out.old.items ++ writes list.now) }
{
    out.put_u8(list.len() as u8)?;
    each_write(out, list.as_slice())
}

fn each_read(out: &mut Vec<u8>, list: &[ReadItem]) -> Result<(), Memory>
    requires { AllByRecursion FitsRead list.now }
    ensures { OnOk result (out.new.items ≡ out.old.items ++ flat_map read list.now) }
{
    for next in list {
        put_read(out, next)?;
    }
    Ok(())
}

/// Adds reads behind their count.
pub fn put_reads(out: &mut Vec<u8>, list: &Reads) -> Result<(), Memory>
    requires { FitReads list.now }
    ensures { OnOk result (out.new.items ≡ out.old.items ++ reads list.now) }
{
    put_u16(out, list.len() as u16)?;
    each_read(out, list.as_slice())
}

fn each_call(out: &mut Vec<u8>, list: &[Asked]) -> Result<(), Memory>
    requires { AllByRecursion FitsAsked list.now }
    ensures { OnOk result (out.new.items ≡ out.old.items ++ flat_map asked list.now) }
{
    for next in list {
        put_asked(out, next)?;
    }
    Ok(())
}

/// Adds calls behind their count.
pub fn put_calls(out: &mut Vec<u8>, list: &Calls) -> Result<(), Memory>
    requires { FitCalls list.now }
    ensures { OnOk result (out.new.items ≡ out.old.items ++ asked_calls list.now) }
{
    put_u16(out, list.len() as u16)?;
    each_call(out, list.as_slice())
}

fn each_item(out: &mut Vec<u8>, list: &[Item]) -> Result<(), Memory>
    requires { AllByRecursion FitsBatchItem list.now }
    ensures { OnOk result (out.new.items ≡ out.old.items ++ flat_map item list.now) }
{
    for next in list {
        put_item(out, next)?;
    }
    Ok(())
}

/// Adds items behind their count.
pub fn put_items(out: &mut Vec<u8>, list: &Items) -> Result<(), Memory>
    requires { FitItems list.now }
    ensures { OnOk result (out.new.items ≡ out.old.items ++ items_of list.now) }
{
    put_u16(out, list.len() as u16)?;
    each_item(out, list.as_slice())
}

fn number_of(level: Level) -> u8
    ensures { result ≡ level_number level }
{
    match level {
        Level::Nothing => 0,
        Level::Read => 1,
        Level::Write => 2,
    }
}

fn put_right(out: &mut Vec<u8>, granted: (TableId, Level)) -> Result<(), Memory>
    ensures { OnOk result (out.new.items ≡ out.old.items ++ right granted) }
{
    put_u32(out, granted.0.0)?;
    out.put_u8(number_of(granted.1))?;
    Ok(())
}

fn each_right(out: &mut Vec<u8>, list: &[(TableId, Level)]) -> Result<(), Memory>
    ensures { OnOk result (out.new.items ≡ out.old.items ++ flat_map right list.now) }
{
    for next in list {
        put_right(out, *next)?;
    }
    Ok(())
}

/// Adds rights behind their count.
pub fn put_rights(out: &mut Vec<u8>, list: &Rights) -> Result<(), Memory>
    requires { FitRights list.now }
    ensures { OnOk result (out.new.items ≡ out.old.items ++ rights list.now) }
{
    let granted = list.as_slice();
    out.put_u8(granted.len() as u8)?;
    each_right(out, granted)
}
