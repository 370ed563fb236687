//! A script of calls as far as its lines were read: what is wrong with the next line, and what it adds.

ghost use Rattle.std.specs.Prelude.{◌≡◌, ◌≤◌, [], ◌∷◌, ◌++◌, true, None, IfOk, OnOk, take, length, MatchOption, ◌&&◌, not, nat_lt};
ghost use Rattle.std.specs.List.{concat};
ghost use Rattle.sched_text.specs.declared.calls.CallItem.TheVariants.{Install};
ghost use Rattle.sched_text.specs.CallDrafts.{has_calls, lacks_lines, call_code_of, text_lines, in_batch, with_item, with_call, with_call_line, after_call_line, no_calls, call_script_of, CallLineFits, CallDraftFits};
ghost use Rattle.sched_text.specs.Results.{Gives};
ghost use Rattle.sched_text.specs.Texts.{lines_of, has_lines};

use crate::call_line::CallLine;
use crate::call_lines::call_line_of;
use crate::calls::{CallItem, CallScript};
use crate::code::LineCode;
use crate::line::LineFault;
use crate::rows::Rows;
use crate::texts::{end_of_lines, first_line, is_skipped};
use sp_base::{Asked, Blob, MOST_TEXT, Memory};
use std::alloc::Global;

/// A script of calls as far as its lines were read.
#[derive(Debug, Drop)]
pub struct CallDraft {
    pub items: Rows<(u32, CallItem)>,
    /// The line of the batch that was begun last.
    pub batch: u32,
    /// How many of its calls are still to come.
    pub left: u32,
    /// Those of its calls that came.
    pub calls: Rows<(u32, Asked)>,
}

/// Whether so many lines that are not passed over are there.
fn has_calls(text: &[u8], count: u32) -> bool
    ensures { result ≡ has_calls count (lines_of text.now) }
{
    let mut rest = text;
    let mut left = count;
    while left > 0 {
        let Some((line, behind)) = first_line(rest) else {
            return false;
        };
        if !is_skipped(line) {
            left -= 1;
        }
        rest = behind;
    }
    true
}

/// Whether so many lines are there, each with its newline, and are no longer than a text may be.
fn has_text(text: &[u8], count: u32) -> bool
    ensures { result ≡ has_lines count (lines_of text.now) && not (nat_lt 16384 (length (concat (take count (lines_of text.now))))) }
{
    match end_of_lines(text, count) {
        Some(end) => end <= MOST_TEXT,
        None => false,
    }
}

/// Whether the lines of a text or of a batch are not all there, or a text is too long.
fn lacks_lines(behind: &[u8], line: &CallLine) -> bool
    ensures { result ≡ lacks_lines (lines_of behind.now) line.now }
{
    match line {
        CallLine::Install(lines) => !has_text(behind, *lines),
        CallLine::Batch(count) => !has_calls(behind, *count),
        _ => false,
    }
}

/// How many of the lines behind it are the text of a line.
fn text_lines(line: &CallLine) -> u32
    ensures { result ≡ text_lines line.now }
{
    match line {
        CallLine::Install(lines) => *lines,
        _ => 0,
    }
}

impl CallDraft {
    /// Before the first line.
    #[tactic(auto, unfolding(crate::specs::CallDrafts::no_calls))]
    pub fn new(alloc: Global) -> CallDraft
        ensures { result ≡ no_calls }
    {
        CallDraft {
            items: Rows::new(alloc),
            batch: 0,
            left: 0,
            calls: Rows::new(alloc),
        }
    }

    /// Adds one more call to the batch, and the batch to the items with its last call.
    fn add_call(&mut self, alloc: Global, number: u32, asked: Asked) -> Result<(), Memory>
        ensures { OnOk result (self.new ≡ with_call number asked self.old) }
    {
        self.calls.push((number, asked))?;
        if self.left > 1 {
            self.left -= 1;
            return Ok(());
        }
        self.left = 0;
        let calls = std::mem::replace(&mut self.calls, Rows::new(alloc));
        self.items.push((self.batch, CallItem::Batch { calls }))
    }

    /// Puts the text of an extension behind the items.
    fn add_text(
        &mut self,
        alloc: Global,
        number: u32,
        behind: &[u8],
        lines: u32,
    ) -> Result<(), Memory>
        requires { has_lines lines (lines_of behind.now) ≡ true }
        ensures { OnOk result (self.new ≡ with_item number (Install (concat (take lines (lines_of behind.now)))) self.old) }
    {
        let Some(end) = end_of_lines(behind, lines) else {
            unreachable!();
        };
        let text = Blob::of(alloc, &behind[..end])?;
        self.items.push((number, CallItem::Install { text }))
    }

    /// Adds what a line says.
    #[tactic(auto, unfolding(crate::specs::CallDrafts::with_call_line))]
    fn add(
        &mut self,
        alloc: Global,
        number: u32,
        behind: &[u8],
        line: CallLine,
    ) -> Result<(), Memory>
        requires { call_code_of (lines_of behind.now) line ≡ None }
        ensures { OnOk result (self.new ≡ with_call_line number (lines_of behind.now) line self.old) }
    {
        match line {
            CallLine::Install(lines) => self.add_text(alloc, number, behind, lines),
            CallLine::Put { table, key, value } => {
                self.items
                    .push((number, CallItem::Put { table, key, value }))
            }
            CallLine::Batch(count) => {
                self.batch = number;
                self.left = count;
                self.calls = Rows::new(alloc);
                Ok(())
            }
            CallLine::Invoke(asked) => self.add_call(alloc, number, asked),
        }
    }

    /// Reads a line, and tells how many of those behind it are its text.
    #[tactic(auto, unfolding(crate::specs::CallDrafts::after_call_line, crate::specs::CallDrafts::after_call, crate::specs::CallDrafts::call_code_of))]
    pub fn read_line(
        &mut self,
        alloc: Global,
        number: u32,
        line: &[u8],
        behind: &[u8],
    ) -> Result<u32, LineFault>
        ensures answer { Gives (λ taken. (self.new, taken)) result (after_call_line number line.now (lines_of behind.now) self.old) }
        ensures there { IfOk result (λ taken. has_lines taken (lines_of behind.now) ≡ true) }
        ensures few { IfOk result (λ taken. taken ≤ 16384) }
        ensures fits { CallDraftFits self.old → OnOk result (CallDraftFits self.new) }
    {
        if is_skipped(line) {
            return Ok(0);
        }
        let says = call_line_of(alloc, self.left > 0, line)?;
        if lacks_lines(behind, &says) {
            return Err(LineFault::Code(LineCode::Text));
        }
        let taken = text_lines(&says);
        self.add(alloc, number, behind, says)?;
        Ok(taken)
    }

    /// The script of these lines.
    #[tactic(auto, unfolding(crate::specs::CallDrafts::call_script_of))]
    pub fn into_script(self) -> CallScript
        ensures { result ≡ call_script_of self }
    {
        let CallDraft { items, .. } = self;
        CallScript { items }
    }
}
