//! The typing of an extension: every item has the types that its places ask, or the first faulty
//! item is told, with its first code.
#![tactic(auto)]

mod check;
mod codes;
mod expressions;
mod functions;
mod items;
mod place;
mod refusal;
mod scope;
mod walk;

pub use check::check_types;
pub use refusal::TypeRefusal;
