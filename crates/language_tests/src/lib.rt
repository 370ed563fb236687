//! Tests of the language: tokens, parser and printer, checks and evaluator, each met with ample memory and
//! at the edge of its limits. They stand above the crates that they test, so that no crate is proved twice.
#![tactic(auto)]

#[cfg(test)]
mod borrows;
#[cfg(test)]
mod checks;
#[cfg(test)]
mod evaluating;
#[cfg(test)]
mod notation;
#[cfg(test)]
mod parsing;
#[cfg(test)]
mod printing;
#[cfg(test)]
mod tokens;
#[cfg(test)]
mod tree;
#[cfg(test)]
mod types;
