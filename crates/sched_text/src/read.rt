//! Reads whole scripts.

ghost use Rattle.std.specs.Prelude.{◌≡◌, IfOk};
ghost use Rattle.sched_text.specs.Fits.{IsScript};
ghost use Rattle.sched_text.specs.CallDrafts.{calls_judged, after_call_line, no_calls, call_script_of, IsCallScript};
ghost use Rattle.sched_text.specs.Drafts.{no_lines, script_of};
ghost use Rattle.sched_text.specs.Judged.{judged, after_line, judged_from, made, Answers};
ghost use Rattle.sched_text.specs.Texts.{lines_of};
ghost use Rattle.sched_text.specs.declared.line.Kind.TheVariants.{Play, SetUp};

use crate::call_draft::CallDraft;
use crate::calls::CallScript;
use crate::code::LineCode;
use crate::draft::Draft;
use crate::fault::ScriptFault;
use crate::line::{Kind, LineFault};
use crate::script::Script;
use crate::texts::{behind_lines, first_line};
use sp_base::{MOST_LINES, MOST_SCRIPT};
use std::alloc::Global;

/// The number of the line that is one too many.
const LINE_TOO_MANY: u32 = MOST_LINES as u32 + 1;

/// The script that a text spells, or its first bad line.
pub fn read_script(alloc: Global, text: &[u8]) -> Result<Script, ScriptFault>
    ensures answer { Answers result (judged Play text.now) }
    ensures fits { IfOk result IsScript }
{
    read(alloc, Kind::Play, text)
}

/// The script that a text spells to set a server up, or its first bad line.
pub fn read_setup(alloc: Global, text: &[u8]) -> Result<Script, ScriptFault>
    ensures answer { Answers result (judged SetUp text.now) }
    ensures fits { IfOk result IsScript }
{
    read(alloc, Kind::SetUp, text)
}

/// The script of calls that a text spells, or its first bad line.
#[tactic(auto, unfolding(crate::specs::CallDrafts::calls_judged))]
pub fn read_calls(alloc: Global, text: &[u8]) -> Result<CallScript, ScriptFault>
    ensures answer { Answers result (calls_judged text.now) }
    ensures fits { IfOk result IsCallScript }
{
    if text.len() as u64 > MOST_SCRIPT {
        return Err(bad_line(0, LineCode::Long));
    }
    read_call_lines(alloc, text)
}

/// The script of this kind that a text spells, or its first bad line.
#[tactic(auto, unfolding(crate::specs::Judged::judged))]
fn read(alloc: Global, kind: Kind, text: &[u8]) -> Result<Script, ScriptFault>
    ensures answer { Answers result (judged kind text.now) }
    ensures fits { IfOk result IsScript }
{
    if text.len() as u64 > MOST_SCRIPT {
        return Err(bad_line(0, LineCode::Long));
    }
    read_lines(alloc, kind, text)
}

/// A line is bad.
fn bad_line(line: u32, code: LineCode) -> ScriptFault
    ensures { result ≡ ScriptFault.BadLine line code }
{
    ScriptFault::BadLine { line, code }
}

/// The script that these lines spell, or the first bad one.
fn read_lines(alloc: Global, kind: Kind, text: &[u8]) -> Result<Script, ScriptFault>
    ensures answer { Answers result (made script_of (judged_from (after_line kind) 1 0 no_lines (lines_of text.now))) }
    ensures fits { IfOk result IsScript }
{
    let mut draft = Draft::new(alloc);
    let mut rest = text;
    let mut number = 1;
    while let Some((line, behind)) = first_line(rest) {
        if number >= LINE_TOO_MANY {
            return Err(bad_line(number, LineCode::Many));
        }
        let taken = match draft.read_line(alloc, kind, number, line, behind) {
            Ok(taken) => taken,
            Err(LineFault::Code(code)) => return Err(bad_line(number, code)),
            Err(LineFault::Memory) => return Err(ScriptFault::Memory),
        };
        number += 1 + taken;
        if number > LINE_TOO_MANY {
            return Err(bad_line(LINE_TOO_MANY, LineCode::Many));
        }
        rest = behind_lines(behind, taken);
    }
    Ok(draft.into_script())
}

/// The script of calls that these lines spell, or the first bad one.
fn read_call_lines(alloc: Global, text: &[u8]) -> Result<CallScript, ScriptFault>
    ensures answer { Answers result (made call_script_of (judged_from after_call_line 1 0 no_calls (lines_of text.now))) }
    ensures fits { IfOk result IsCallScript }
{
    let mut draft = CallDraft::new(alloc);
    let mut rest = text;
    let mut number = 1;
    while let Some((line, behind)) = first_line(rest) {
        if number >= LINE_TOO_MANY {
            return Err(bad_line(number, LineCode::Many));
        }
        let taken = match draft.read_line(alloc, number, line, behind) {
            Ok(taken) => taken,
            Err(LineFault::Code(code)) => return Err(bad_line(number, code)),
            Err(LineFault::Memory) => return Err(ScriptFault::Memory),
        };
        number += 1 + taken;
        if number > LINE_TOO_MANY {
            return Err(bad_line(LINE_TOO_MANY, LineCode::Many));
        }
        rest = behind_lines(behind, taken);
    }
    Ok(draft.into_script())
}
