//! The command `check`.

ghost use Rattle.std.specs.Prelude.{◌≡◌, ◌≢◌, ◌+◌, length, IfSome, IfOk};
ghost use Rattle.sp_outside.specs.Reading.{TookUpTo};
ghost use Rattle.splinter.specs.Checks.{Checks, IsVerdict, JudgesText, accepted_line, refused_line};
ghost use Rattle.splinter.specs.Ending.{Causes, WritesNothing};

use crate::status::Status;
use crate::verdict::{Verdict, write};
use ext_check::{CheckFault, check_text};
use ext_mean::Refusal;
use report::Text;
use sp_base::{MOST_TEXT, Memory};
use sp_outside::{Input, Sink, Source, read_input};
use std::alloc::Global;

/// Checks the extension that the source gives: one line tells the number of its functions, or the line
/// and the code of its first refusal. All is read before anything is written.
pub fn check_command<S: Source, K: Sink>(alloc: Global, source: &mut S, sink: &mut K) -> Status
    // What is written, where source and sink tell their content.
    ensures told { IfSome (S.left source.old) (λ input. IfSome (K.held sink.old) (λ held.
        Checks result input held (S.left source.new) (K.held sink.new))) }
    // What the status tells of the input, where the source alone tells its content.
    ensures judged { IfSome (S.left source.old) (λ input. JudgesText result input) }
    // At most one byte more than a text may have is read.
    ensures taken { IfSome (S.left source.old) (λ input. TookUpTo (MOST_TEXT + 1) input (S.left source.new)) }
    // Why it stopped. Where no fault was counted it ends Ok or Refused, or for want of memory.
    ensures causes { Causes result (S.faults source.old) (S.faults source.new) (K.faults sink.old) (K.faults sink.new) }
    ensures command { result ≢ Status.Usage }
    ensures no_run { result ≢ Status.Script }
    ensures nothing { WritesNothing result sink.old sink.new }
{
    match read_input(alloc, source, MOST_TEXT) {
        Input::Whole(input) => match verdict_of(alloc, input.as_slice()) {
            Ok(verdict) => write(sink, verdict.text.bytes(), verdict.status),
            Err(Memory) => Status::Memory,
        },
        Input::Longer => write(sink, b"line 1 Long\n", Status::Refused),
        Input::Failed => Status::ReadFault,
        Input::Memory => Status::Memory,
    }
}

/// Whether an input is an extension that may run.
#[tactic(auto, using(crate::proofs::OneText::only_refusal))]
fn verdict_of(alloc: Global, input: &[u8]) -> Result<Verdict, Memory>
    ensures { IfOk result (λ verdict. IsVerdict input.now verdict.status verdict.text) }
{
    match check_text(alloc, input) {
        Ok(program) => Ok(Verdict {
            status: Status::Ok,
            text: accepted_line(alloc, program.functions.len())?,
        }),
        Err(CheckFault::Refused { line, code }) => Ok(Verdict {
            status: Status::Refused,
            text: refused_line(alloc, line, code)?,
        }),
        Err(CheckFault::Memory) => Err(Memory),
    }
}

/// The line of an extension with so many functions.
fn accepted_line(alloc: Global, functions: usize) -> Result<Text, Memory>
    ensures { IfOk result (λ text. text ≡ accepted_line functions) }
{
    let mut text = Text::new(alloc);
    text.add(b"ok")?;
    text.number(functions as u64)?;
    text.end_line()?;
    Ok(text)
}

/// The line of a refusal.
fn refused_line(alloc: Global, line: u32, code: Refusal) -> Result<Text, Memory>
    ensures { IfOk result (λ text. text ≡ refused_line line code) }
{
    let mut text = Text::new(alloc);
    text.add(b"line")?;
    text.number(u64::from(line))?;
    text.word(code.word())?;
    text.end_line()?;
    Ok(text)
}
