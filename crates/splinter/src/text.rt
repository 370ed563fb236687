//! The text of a script's play.

ghost use Rattle.std.specs.Prelude.{◌≡◌, IfOk};
ghost use Rattle.sched_text.specs.Fits.{IsScript};
ghost use Rattle.splinter.specs.Running.{IsPlayOf};

use crate::play::{Listener, play};
use report::{Line, Prefix, Text, answer_line, journal_lines};
use sched_text::Script;
use sp_base::Memory;
use std::alloc::Global;

/// A text hears an answer as its line.
impl Listener for Text {
    ghost use Rattle.std.specs.Prelude.{◌++◌};
    ghost use Rattle.report.specs.Lines.{answer_text};

    ghost heard = { λ text answer. text ++ answer_text answer.0 answer.1 };

    fn hear(&mut self, alloc: Global, prefix: Prefix, line: &Line) -> Result<(), Memory> {
        let told = answer_line(alloc, prefix, line)?;
        self.add(told.bytes())
    }
}

/// The answers of a script's play, and then its journal.
pub fn text_of_play(alloc: Global, script: Script) -> Result<Text, Memory>
    requires { IsScript script }
    ensures { IfOk result (λ text. IsPlayOf script text) }
{
    let mut text = Text::new(alloc);
    let sim = play(alloc, script, &mut text)?;
    let journal = journal_lines(alloc, sim.book().journal().entries())?;
    text.add(journal.bytes())?;
    Ok(text)
}
