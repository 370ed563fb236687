//! The text of answer lines.

ghost use Rattle.std.specs.Prelude.{◌≡◌, ◌++◌, ◌∷◌, IfOk, OnOk};
ghost use Rattle.report.specs.Lines.{answer_text, call_name, conflict_fields, counted, line_fields, marked, outcome_fields, read_said, rejected_fields, said_fields, spaced, trap_number};

use crate::line::{Line, Prefix, Said};
use crate::text::Text;
use ext_mean::Refusal;
use sp_base::{Blob, CallNo, Caller, Key, Memory, Outcome, TableId, Trap};
use std::alloc::Global;

/// One answer line.
pub fn answer_line(alloc: Global, prefix: Prefix, line: &Line) -> Result<Blob, Memory>
    ensures { IfOk result (λ text. text ≡ answer_text prefix line.now) }
{
    let mut text = Text::new(alloc);
    match prefix {
        Prefix::At(n) => text.add_number(u64::from(n))?,
        Prefix::Drain => text.add(b"drain")?,
    }
    add_line(&mut text, line)?;
    text.end_line()?;
    Ok(text.into_blob())
}

fn add_line(text: &mut Text, line: &Line) -> Result<(), Memory>
    ensures { OnOk result (text.new ≡ text.old ++ spaced (line_fields line.now)) }
{
    match line {
        Line::Put { n } => {
            text.word(b"put")?;
            text.number(*n)
        }
        Line::Denied => text.word(b"denied"),
        Line::Full => text.word(b"full"),
        Line::Installed { n, ext } => {
            text.word(b"installed")?;
            text.number(*n)?;
            text.word(b"ext")?;
            text.number(u64::from(ext.0))
        }
        Line::Rejected { line, code } => add_rejected(text, *line, *code),
        Line::Memory => text.word(b"memory"),
        Line::Idle => text.word(b"idle"),
        Line::Of {
            caller,
            number,
            said,
            away,
        } => {
            text.add(b" ")?;
            add_call(text, *caller, *number)?;
            add_said(text, said)?;
            add_mark(text, *away, b"away")
        }
    }
}

fn add_rejected(text: &mut Text, line: u32, code: Refusal) -> Result<(), Memory>
    ensures { OnOk result (text.new ≡ text.old ++ spaced (rejected_fields line code)) }
{
    text.word(b"rejected")?;
    text.number(u64::from(line))?;
    text.word(code.word())
}

fn add_call(text: &mut Text, caller: Caller, number: CallNo) -> Result<(), Memory>
    ensures { OnOk result (text.new ≡ text.old ++ call_name caller number) }
{
    text.add_number(u64::from(caller.tenant.0))?;
    text.add(b".")?;
    text.add_number(u64::from(caller.number))?;
    text.add(b".")?;
    text.add_number(number.0)
}

/// Adds a word where it is due.
fn add_mark(text: &mut Text, due: bool, word: &[u8]) -> Result<(), Memory>
    ensures { OnOk result (text.new ≡ text.old ++ spaced (marked due word.now)) }
{
    if due { text.word(word) } else { Ok(()) }
}

fn add_said(text: &mut Text, said: &Said) -> Result<(), Memory>
    ensures { OnOk result (text.new ≡ text.old ++ spaced (said_fields said.now)) }
{
    match said {
        Said::Queued => text.word(b"queued"),
        Said::Busy { number } => add_counted(text, b"busy", number.0),
        Said::NoExtension { count } => add_counted(text, b"no-extension", u64::from(*count)),
        Said::Read {
            table,
            key,
            version,
            pushed,
        } => add_read(text, *table, key, *version, *pushed),
        Said::On { spent, pushed } => {
            add_counted(text, b"on", u64::from(*spent))?;
            add_mark(text, *pushed, b"pushed")
        }
        Said::Committed { n, outcome } => {
            add_counted(text, b"committed", *n)?;
            add_outcome(text, outcome)
        }
        Said::Stale { last } => add_counted(text, b"stale", *last),
        Said::Conflict {
            table,
            key,
            read,
            now,
        } => add_conflict(text, *table, key, *read, *now),
        Said::Full => text.word(b"full"),
        Said::Moved => text.word(b"moved"),
        Said::Cut => text.word(b"cut"),
        Said::Repeated => text.word(b"repeated"),
        Said::BadBudget => text.word(b"bad-budget"),
        Said::Foreign { table } => add_counted(text, b"foreign", u64::from(table.0)),
        Said::Shape { code } => add_counted(text, b"shape", u64::from(*code)),
        Said::Lied => text.word(b"lied"),
        Said::NotParked => text.word(b"not-parked"),
        Said::Memory => text.word(b"memory"),
    }
}

/// Adds a word and a number.
fn add_counted(text: &mut Text, word: &[u8], number: u64) -> Result<(), Memory>
    ensures { OnOk result (text.new ≡ text.old ++ spaced (counted word.now number)) }
{
    text.word(word)?;
    text.number(number)
}

fn add_read(
    text: &mut Text,
    table: TableId,
    key: &Key,
    version: u64,
    pushed: bool,
) -> Result<(), Memory>
    ensures { OnOk result (text.new ≡ text.old ++ spaced (read_said table key.now version pushed)) }
{
    text.word(b"read")?;
    text.number(u64::from(table.0))?;
    text.field(key.bytes())?;
    text.number(version)?;
    add_mark(text, pushed, b"pushed")
}

fn add_conflict(
    text: &mut Text,
    table: TableId,
    key: &Key,
    read: u64,
    now: u64,
) -> Result<(), Memory>
    ensures { OnOk result (text.new ≡ text.old ++ spaced (conflict_fields table key.now read now)) }
{
    text.word(b"conflict")?;
    text.number(u64::from(table.0))?;
    text.field(key.bytes())?;
    text.number(read)?;
    text.number(now)
}

fn number_of(trap: Trap) -> u64
    ensures { result ≡ trap_number trap }
{
    trap as u64
}

/// Adds how a run ended.
pub fn add_outcome(text: &mut Text, outcome: &Outcome) -> Result<(), Memory>
    ensures { OnOk result (text.new ≡ text.old ++ spaced (outcome_fields outcome.now)) }
{
    match outcome {
        Outcome::Done(reply) => {
            text.word(b"done")?;
            text.number(reply.code)?;
            text.field(reply.bytes.bytes())
        }
        Outcome::Trapped(trap) => {
            text.word(b"trap")?;
            text.number(number_of(*trap))
        }
        Outcome::Killed => text.word(b"killed"),
    }
}
