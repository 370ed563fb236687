//! The ownership of an extension: no buffer is used when it is gone, changed while a slice of it may
//! be read, or outlived by a slice, or the first faulty item is told, with its first code.
#![tactic(auto)]

mod arguments;
mod check;
mod frozen;
mod giving;
mod items;
mod marks;
mod origins;
mod plain;
mod refusal;
mod scene;
mod state;
mod table;
mod walk;

pub use check::check_borrows;
pub use refusal::BorrowRefusal;
