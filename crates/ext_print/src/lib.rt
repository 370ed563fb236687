//! The canonical text of an extension: no comment, one space only where two tokens would run
//! together, and only the parentheses that are needed.
#![tactic(auto)]

mod printing;
mod shown_expressions;
mod shown_functions;
mod shown_plain;
mod shown_statements;
mod symbols;

pub use printing::print;
