//! The text of the journal's entries.

ghost use Rattle.std.specs.Prelude.{◌≡◌, ◌++◌, IfOk, OnOk};
ghost use Rattle.report.specs.Lines.{outcome_fields, spaced};
ghost use Rattle.report.specs.Entries.{access_fields, call_fields, entry_text, home_word, install_fields, invoke_fields, kind_fields, line_count, put_fields, reads_fields, source_text, write_fields, writes_fields};

use crate::answers::add_outcome;
use crate::text::Text;
use journal::{Entry, Home};
use sp_base::{
    Blob, Call, Change, ExtNo, Key, Memory, Outcome, ReadItem, TableId, TenantId, Write,
};
use std::alloc::Global;

/// The lines of entry `n`. `ext` is the number of the extension that it installs, and is not looked
/// at for another entry.
pub fn entry_lines(alloc: Global, n: u64, ext: ExtNo, entry: &Entry) -> Result<Blob, Memory>
    ensures { IfOk result (λ text. text ≡ entry_text n ext entry.now) }
{
    let mut text = Text::new(alloc);
    add_entry(&mut text, n, ext, entry)?;
    Ok(text.into_blob())
}

/// Adds the lines of entry `n`.
pub fn add_entry(text: &mut Text, n: u64, ext: ExtNo, entry: &Entry) -> Result<(), Memory>
    ensures { OnOk result (text.new ≡ text.old ++ entry_text n ext entry.now) }
{
    text.add(b"journal")?;
    text.number(n)?;
    add_kind(text, ext, entry)?;
    text.end_line()?;
    add_source(text, entry)
}

fn add_kind(text: &mut Text, ext: ExtNo, entry: &Entry) -> Result<(), Memory>
    ensures { OnOk result (text.new ≡ text.old ++ spaced (kind_fields ext entry.now)) }
{
    match entry {
        Entry::Put {
            tenant,
            table,
            key,
            value,
        } => add_put(text, *tenant, *table, key, value),
        Entry::Install {
            tenant,
            text: source,
        } => add_install(text, *tenant, ext, lines_in(source.bytes())),
        Entry::Invoke {
            call,
            outcome,
            writes,
            reads,
            home,
        } => {
            text.word(b"invoke")?;
            add_call_fields(text, call)?;
            text.word(word_of(*home))?;
            add_outcome(text, outcome)?;
            add_access(text, reads.as_slice(), writes.as_slice())
        }
    }
}

fn add_put(
    text: &mut Text,
    tenant: TenantId,
    table: TableId,
    key: &Key,
    value: &Blob,
) -> Result<(), Memory>
    ensures { OnOk result (text.new ≡ text.old ++ spaced (put_fields tenant table key.now value.now)) }
{
    text.word(b"put")?;
    text.number(u64::from(tenant.0))?;
    text.number(u64::from(table.0))?;
    text.field(key.bytes())?;
    text.field(value.bytes())
}

fn add_install(text: &mut Text, tenant: TenantId, ext: ExtNo, lines: usize) -> Result<(), Memory>
    ensures { OnOk result (text.new ≡ text.old ++ spaced (install_fields tenant ext lines)) }
{
    text.word(b"install")?;
    text.number(u64::from(tenant.0))?;
    text.number(u64::from(ext.0))?;
    text.number(lines as u64)
}

fn lines_in(text: &[u8]) -> usize
    ensures { result ≡ line_count text.now }
{
    text.iter().filter(|byte| **byte == b'\n').count()
}

fn add_call_fields(text: &mut Text, call: &Call) -> Result<(), Memory>
    ensures { OnOk result (text.new ≡ text.old ++ spaced (call_fields call.now)) }
{
    text.number(u64::from(call.caller.tenant.0))?;
    text.number(u64::from(call.caller.number))?;
    text.number(call.number.0)?;
    text.number(u64::from(call.ext.0))?;
    text.number(u64::from(call.budget))?;
    text.field(call.args.bytes())
}

fn word_of(home: Home) -> &'static [u8]
    ensures { result.now ≡ home_word home }
{
    match home {
        Home::Server => b"server",
        Home::Client => b"client",
    }
}

fn add_access(text: &mut Text, reads: &[ReadItem], writes: &[Write]) -> Result<(), Memory>
    ensures { OnOk result (text.new ≡ text.old ++ spaced (access_fields reads.now writes.now)) }
{
    text.word(b"reads")?;
    text.number(reads.len() as u64)?;
    add_reads(text, reads)?;
    text.word(b"writes")?;
    text.number(writes.len() as u64)?;
    add_writes(text, writes)
}

fn add_reads(text: &mut Text, reads: &[ReadItem]) -> Result<(), Memory>
    ensures { OnOk result (text.new ≡ text.old ++ spaced (reads_fields reads.now)) }
{
    for read in reads {
        text.number(u64::from(read.table.0))?;
        text.field(read.key.bytes())?;
        text.number(read.version)?;
    }
    Ok(())
}

fn add_writes(text: &mut Text, writes: &[Write]) -> Result<(), Memory>
    ensures { OnOk result (text.new ≡ text.old ++ spaced (writes_fields writes.now)) }
{
    for write in writes {
        add_write(text, write)?;
    }
    Ok(())
}

fn add_write(text: &mut Text, write: &Write) -> Result<(), Memory>
    ensures { OnOk result (text.new ≡ text.old ++ spaced (write_fields write.now)) }
{
    text.number(u64::from(write.table.0))?;
    text.field(write.key.bytes())?;
    match &write.change {
        Change::Put(value) => {
            text.word(b"put")?;
            text.field(value.bytes())
        }
        Change::Del => text.word(b"del"),
    }
}

/// Adds the text that an entry installs.
fn add_source(text: &mut Text, entry: &Entry) -> Result<(), Memory>
    ensures { OnOk result (text.new ≡ text.old ++ source_text entry.now) }
{
    match entry {
        Entry::Install { text: source, .. } => text.add(source.bytes()),
        _ => Ok(()),
    }
}
