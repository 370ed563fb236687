//! The lines that the commands write: answers, the journal's entries and the summary of a drill.
//!
//! `specs/Lines.antt` says what each answer's line is, and `specs/Entries.antt` what the journal's are.
#![tactic(auto)]

mod answers;
mod counts;
mod entries;
mod journals;
mod line;
mod text;

pub use answers::answer_line;
pub use counts::{Counts, summary};
pub use entries::entry_lines;
pub use journals::journal_lines;
pub use line::{Line, Prefix, Said};
pub use text::Text;

#[cfg(test)]
mod tests;
