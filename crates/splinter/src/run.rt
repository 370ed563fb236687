//! The command `run`.

ghost use Rattle.std.specs.Prelude.{◌≡◌, ◌≢◌, ◌≤◌, ◌+◌, length, IfSome, IfOk};
ghost use Rattle.sp_outside.specs.Reading.{TookUpTo};
ghost use Rattle.splinter.specs.Ending.{Causes, WritesNothing};
ghost use Rattle.splinter.specs.Running.{IsRunVerdict, JudgesScript, Runs, bad_line};

use crate::status::Status;
use crate::text::text_of_play;
use crate::verdict::{Verdict, write};
use report::Text;
use sched_text::{LineCode, ScriptFault, read_script};
use sp_base::{MOST_SCRIPT, Memory};
use sp_outside::{Input, Sink, Source, read_input};
use std::alloc::Global;

/// Plays the script that the source gives, and writes its answers and its journal, or the line of its
/// first bad line. All is read before anything is written.
pub fn run_command<S: Source, K: Sink>(alloc: Global, source: &mut S, sink: &mut K) -> Status
    // What is written, where source and sink tell their content.
    ensures told { IfSome (S.left source.old) (λ input. IfSome (K.held sink.old) (λ held.
        Runs result input held (S.left source.new) (K.held sink.new))) }
    // What the status tells of the input, where the source alone tells its content.
    ensures judged { IfSome (S.left source.old) (λ input. JudgesScript result input) }
    // At most one byte more than a script may have is read.
    ensures taken { IfSome (S.left source.old) (λ input. TookUpTo (MOST_SCRIPT + 1) input (S.left source.new)) }
    // Why it stopped. Where no fault was counted it ends Ok or Script, or for want of memory.
    ensures causes { Causes result (S.faults source.old) (S.faults source.new) (K.faults sink.old) (K.faults sink.new) }
    ensures command { result ≢ Status.Usage }
    ensures no_check { result ≢ Status.Refused }
    ensures nothing { WritesNothing result sink.old sink.new }
{
    match read_input(alloc, source, MOST_SCRIPT as usize) {
        Input::Whole(input) => match verdict_of(alloc, input.as_slice()) {
            Ok(verdict) => write(sink, verdict.text.bytes(), verdict.status),
            Err(Memory) => Status::Memory,
        },
        Input::Longer => write(sink, b"script 0 Long\n", Status::Script),
        Input::Failed => Status::ReadFault,
        Input::Memory => Status::Memory,
    }
}

/// What is to be written of an input.
fn verdict_of(alloc: Global, input: &[u8]) -> Result<Verdict, Memory>
    ensures { IfOk result (λ verdict. IsRunVerdict input.now verdict.status verdict.text) }
{
    match read_script(alloc, input) {
        Ok(script) => Ok(Verdict {
            status: Status::Ok,
            text: text_of_play(alloc, script)?,
        }),
        Err(ScriptFault::BadLine { line, code }) => Ok(Verdict {
            status: Status::Script,
            text: bad_line(alloc, line, code)?,
        }),
        Err(ScriptFault::Memory) => Err(Memory),
    }
}

/// The line of a first bad line.
fn bad_line(alloc: Global, line: u32, code: LineCode) -> Result<Text, Memory>
    ensures { IfOk result (λ text. text ≡ bad_line line code) }
{
    let mut text = Text::new(alloc);
    text.add(b"script")?;
    text.number(u64::from(line))?;
    text.word(code.word())?;
    text.end_line()?;
    Ok(text)
}
