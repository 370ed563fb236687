//! Reads each line of a script of calls by itself.

ghost use Rattle.std.specs.Prelude.{◌≡◌, map, IfOk};
ghost use Rattle.sched_text.specs.CallDrafts.{CallLineFits};
ghost use Rattle.sched_text.specs.CallLines.{call_word_of, is_in_place, call_word_field, install_line, call_put_line, batch_line, invoke_line, call_line_of_word, call_line_of};
ghost use Rattle.sched_text.specs.Results.{Gives};

use crate::call_line::{CallLine, CallWord};
use crate::code::LineCode;
use crate::fields::{blob, field, fields, key, number, push_ok, small};
use crate::line::LineFault;
use crate::lines::counted;
use sp_base::{
    Asked, CallNo, ExtNo, MOST_ARGUMENTS, MOST_BATCH, MOST_TEXT, MOST_VALUE, TableId, same_bytes,
};
use std::alloc::Global;

/// The word that a field spells.
fn call_word_of(text: &[u8]) -> Option<CallWord>
    ensures { result ≡ call_word_of text.now }
{
    if same_bytes(text, b"install") {
        Some(CallWord::Install)
    } else if same_bytes(text, b"put") {
        Some(CallWord::Put)
    } else if same_bytes(text, b"batch") {
        Some(CallWord::Batch)
    } else if same_bytes(text, b"invoke") {
        Some(CallWord::Invoke)
    } else {
        None
    }
}

/// Whether a line of this word may stand inside a batch, or outside.
fn is_in_place(in_batch: bool, word: CallWord) -> bool
    ensures { result ≡ is_in_place in_batch word }
{
    match word {
        CallWord::Invoke => in_batch,
        CallWord::Install | CallWord::Put | CallWord::Batch => !in_batch,
    }
}

/// The word of a line in its place.
#[tactic(auto, unfolding(crate::specs::CallLines::call_word_field))]
fn word(in_batch: bool, text: &[u8]) -> Result<CallWord, LineFault>
    ensures { Gives (λ word. word) result (call_word_field in_batch text.now) }
{
    match call_word_of(text) {
        Some(word) if is_in_place(in_batch, word) => Ok(word),
        _ => Err(LineFault::Code(LineCode::Word)),
    }
}

/// `install LINES`
#[tactic(auto, unfolding(crate::specs::CallLines::install_line))]
fn install_line(fields: &[&[u8]]) -> Result<CallLine, LineFault>
    ensures value { Gives (λ line. line) result (install_line (map (λ x. x.now) fields.now)) }
    ensures fits { IfOk result CallLineFits }
{
    counted(fields, 2)?;
    let lines = small(field(fields, 1), 1, MOST_TEXT as u32)?;
    Ok(CallLine::Install(lines))
}

/// `put N KEY VALUE`
#[tactic(auto, unfolding(crate::specs::CallLines::call_put_line))]
fn put_line(alloc: Global, fields: &[&[u8]]) -> Result<CallLine, LineFault>
    ensures value { Gives (λ line. line) result (call_put_line (map (λ x. x.now) fields.now)) }
    ensures fits { IfOk result CallLineFits }
{
    counted(fields, 4)?;
    let table = TableId(small(field(fields, 1), 0, u32::MAX)?);
    let key = key(alloc, field(fields, 2))?;
    let value = blob(alloc, field(fields, 3), 0, MOST_VALUE)?;
    Ok(CallLine::Put { table, key, value })
}

/// `batch K`
#[tactic(auto, unfolding(crate::specs::CallLines::batch_line))]
fn batch_line(fields: &[&[u8]]) -> Result<CallLine, LineFault>
    ensures value { Gives (λ line. line) result (batch_line (map (λ x. x.now) fields.now)) }
    ensures fits { IfOk result CallLineFits }
{
    counted(fields, 2)?;
    let count = small(field(fields, 1), 1, MOST_BATCH as u32)?;
    Ok(CallLine::Batch(count))
}

/// `invoke C NO EXT BUDGET PUSH ARGS`
#[tactic(auto, unfolding(crate::specs::CallLines::invoke_line))]
fn invoke_line(alloc: Global, fields: &[&[u8]]) -> Result<CallLine, LineFault>
    ensures value { Gives (λ line. line) result (invoke_line (map (λ x. x.now) fields.now)) }
    ensures fits { IfOk result CallLineFits }
{
    counted(fields, 7)?;
    let caller = small(field(fields, 1), 0, u32::MAX)?;
    let number = CallNo(number(field(fields, 2), 0, u64::MAX)?);
    let ext = ExtNo(small(field(fields, 3), 0, u32::MAX)?);
    let budget = small(field(fields, 4), 0, u32::MAX)?;
    let push_ok = push_ok(field(fields, 5))?;
    let args = blob(alloc, field(fields, 6), 0, MOST_ARGUMENTS)?;
    Ok(CallLine::Invoke(Asked {
        caller,
        number,
        ext,
        budget,
        push_ok,
        args,
    }))
}

/// What the fields of a line of this word say.
fn line_of_word(alloc: Global, word: CallWord, fields: &[&[u8]]) -> Result<CallLine, LineFault>
    ensures value { Gives (λ line. line) result (call_line_of_word word (map (λ x. x.now) fields.now)) }
    ensures fits { IfOk result CallLineFits }
{
    match word {
        CallWord::Install => install_line(fields),
        CallWord::Put => put_line(alloc, fields),
        CallWord::Batch => batch_line(fields),
        CallWord::Invoke => invoke_line(alloc, fields),
    }
}

/// What a line of a script of calls says, inside a batch or outside.
#[tactic(auto, unfolding(crate::specs::CallLines::call_line_of))]
pub fn call_line_of(alloc: Global, in_batch: bool, line: &[u8]) -> Result<CallLine, LineFault>
    ensures value { Gives (λ line. line) result (call_line_of in_batch line.now) }
    ensures fits { IfOk result CallLineFits }
{
    let fields = fields(alloc, line)?;
    let word = word(in_batch, field(fields.as_slice(), 0))?;
    line_of_word(alloc, word, fields.as_slice())
}
