//! The parser of extensions: the tree of a text with the lines of its items, or its first fault; and the
//! printer of `ext_print`, which gives the canonical text of a tree.
#![tactic(auto)]

mod blocks;
mod expressions;
mod fault;
mod functions;
mod laws;
mod level;
mod look;
mod parsed;
mod parsing;
mod plain;
mod reader;
mod reading;

pub use ext_print::print;
pub use fault::ParseFault;
pub use laws::{
    every_text_is_judged, faulty_texts_spell_none, texts_have_one_fault, texts_spell_one_program,
};
pub use parsed::Parsed;
pub use parsing::parse;
