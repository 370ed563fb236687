//! The plain evaluator: a slow walk through the tree of an extension, whose contract is the meaning.
#![tactic(auto)]

mod acts;
mod arms;
mod bytes;
mod changes;
mod evaluating;
mod expressions;
mod halt;
mod locals;
mod operators;
mod records;
mod rights;
mod statements;
mod steps;
mod values;
mod world;

pub use evaluating::eval;
