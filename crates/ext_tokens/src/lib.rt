//! The tokens of an extension's text: each with its line, up to the end of the text or to the first
//! place that is faulty whatever the grammar says.
#![tactic(auto)]

mod bytes;
mod gap;
mod laws;
mod lexeme;
mod lines;
mod next;
mod numbers;
mod scan;
mod strings;
mod symbols;
mod words;

pub use bytes::is_plain;
pub use laws::{
    ends_are_one, every_text_has_tokens, no_token_follows, tokens_are_one, tokens_join, tokens_part,
};
pub use lines::ends_line;
pub use scan::{End, Scanned, scan_text};
pub use words::letters;
