//! Worked runs of extensions: what each is given, and what it comes to.

ghost use Rattle.std.specs.Prelude.{◌≡◌, IfOk};
ghost use Rattle.sp_base.specs.Spelling.{FitsOpt};
ghost use Rattle.task.specs.Laws.{MayBegin};

use sp_base::{Blob, Call, CallNo, Caller, ExtNo, Key, Level, ReadItem, Rights, TableId, TenantId};
use std::alloc::Global;
use std::sync::Arc;
use std::test::Fail;
use task::Ext;

/// One run: its text on one line, its arguments and budget, the one table that it may use, and the
/// records that this holds.
#[derive(Clone, Copy)]
pub struct Case<'a> {
    pub text: &'static str,
    pub args: &'a [u8],
    pub budget: u32,
    pub table: u32,
    pub held: &'static [(&'static [u8], &'static [u8])],
    /// The keys that it reads, each with the units spent at its want.
    pub wants: &'a [(&'a [u8], u32)],
    /// The units spent at its end, and how it ends.
    pub units: u32,
    pub ends: End,
    /// The key and the value of its one write, if it has one.
    pub puts: Option<(&'static [u8], &'static [u8])>,
}

/// How a run ends.
#[derive(Clone, Copy)]
pub enum End {
    Done(u64, &'static [u8]),
    Trapped(u8),
    Killed,
}

/// The extension of a text on one line.
pub fn extension(alloc: Global, text: &str) -> Result<Arc<Ext>, Fail> {
    let mut line = text.as_bytes().to_vec(alloc)?;
    line.push(b'\n')?;
    match Ext::make(alloc, line.as_slice()) {
        Ok(ext) => Ok(Arc::new(alloc, ext)?),
        Err(_) => Err(Fail::new("no extension")),
    }
}

/// A call of caller 1 of tenant 1.
pub fn call(alloc: Global, budget: u32, args: &[u8]) -> Result<Call, Fail>
    ensures { IfOk result (λ call. MayBegin call) }
{
    if budget < 1 || budget > 100_000 || args.len() > 1024 {
        return Err(Fail::new("no call"));
    }
    Ok(Call {
        caller: Caller {
            tenant: TenantId(1),
            number: 1,
        },
        number: CallNo(1),
        ext: ExtNo(0),
        budget,
        push_ok: false,
        args: Blob::of(alloc, args)?,
    })
}

/// The right to read and write one table.
pub fn rights(alloc: Global, table: u32) -> Result<Rights, Fail> {
    let list = vec![in alloc; (TableId(table), Level::Write)]?;
    Ok(Rights::of(list))
}

/// The value under a key, where one is held.
fn value_of(
    alloc: Global,
    held: &[(&'static [u8], &'static [u8])],
    key: &Key,
) -> Result<Option<Blob>, Fail>
    ensures { IfOk result (λ value. FitsOpt value) }
{
    for (name, bytes) in held {
        if *name == key.bytes() && bytes.len() <= 4096 {
            return Ok(Some(Blob::of(alloc, bytes)?));
        }
    }
    Ok(None)
}

/// The record under a key: of version 1 where it is held, else absent.
pub fn record(
    alloc: Global,
    held: &[(&'static [u8], &'static [u8])],
    table: TableId,
    key: &Key,
) -> Result<ReadItem, Fail>
    ensures table { IfOk result (λ item. item.table ≡ table) }
    ensures key { IfOk result (λ item. item.key ≡ key.now) }
    ensures value { IfOk result (λ item. FitsOpt item.value) }
{
    let value = value_of(alloc, held, key)?;
    Ok(ReadItem {
        table,
        key: key.share(alloc)?,
        version: u64::from(value.is_some()),
        read_at: 9,
        value,
    })
}
