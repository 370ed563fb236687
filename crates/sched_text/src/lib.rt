//! Scripts: their types, and the readers that take a text to the script that it spells, or tell its
//! first bad line.
#![tactic(auto)]

mod call_draft;
mod call_line;
mod call_lines;
mod calls;
mod code;
mod draft;
mod event;
mod fault;
mod fields;
mod laws;
mod line;
mod lines;
mod read;
mod rows;
mod script;
mod tenants;
mod texts;

pub use calls::{CallItem, CallScript};
pub use code::LineCode;
pub use event::Event;
pub use fault::ScriptFault;
pub use fields::spelled_number;
pub use laws::{bytes_are_pairs, fields_are_spaced, lines_read_back, numbers_are_decimal};
pub use read::{read_calls, read_script, read_setup};
pub use rows::Rows;
pub use script::{Head, Script};
