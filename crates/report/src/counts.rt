//! The summary of a drill.

ghost use Rattle.std.specs.Prelude.{◌≡◌, ◌++◌, IfOk, OnOk};
ghost use Rattle.report.specs.Summary.{summary_text, count_line};

use crate::text::Text;
use sp_base::{Blob, Memory};
use std::alloc::Global;

/// What a drill counts.
#[derive(Clone, Copy, Debug, PartialEq, Eq)]
pub struct Counts {
    pub calls: u64,
    /// Answer lines that tell of a committed call.
    pub committed: u64,
    /// Answer lines that tell of a conflict.
    pub conflict: u64,
    /// Answer lines that tell of a call pushed to its client.
    pub pushed: u64,
    /// The journal's entries.
    pub journal: u64,
}

/// One line for each count.
pub fn summary(alloc: Global, counts: &Counts) -> Result<Blob, Memory>
    ensures { IfOk result (λ text. text ≡ summary_text counts.now) }
{
    let mut text = Text::new(alloc);
    add_count(&mut text, b"calls", counts.calls)?;
    add_count(&mut text, b"committed", counts.committed)?;
    add_count(&mut text, b"conflict", counts.conflict)?;
    add_count(&mut text, b"pushed", counts.pushed)?;
    add_count(&mut text, b"journal", counts.journal)?;
    Ok(text.into_blob())
}

fn add_count(text: &mut Text, word: &[u8], count: u64) -> Result<(), Memory>
    ensures { OnOk result (text.new ≡ text.old ++ count_line word.now count) }
{
    text.add(word)?;
    text.number(count)?;
    text.end_line()
}
