use crate::name::Name;
use sp_base::{Blob, Key, TableId, Writes};
use sqlite_items::Items;

/// A buffer that `put` makes the record at its place.
#[derive(Debug, Drop)]
pub struct Buffer {
    pub table: TableId,
    pub key: Key,
    pub bytes: Blob,
}

/// The value of an expression or a variable, by its kind.
#[derive(Debug, Drop)]
pub enum Value {
    Int(u64),
    Bool(bool),
    /// A slice is its bytes.
    Slice(Blob),
    Buf(Buffer),
    /// A buffer with no place is its bytes.
    Temp(Blob),
}

/// A variable that is in scope.
#[derive(Debug, Drop)]
pub struct Local {
    pub name: Name,
    pub value: Value,
}

/// What a run has so far.
#[derive(Debug, Drop)]
pub struct State {
    /// The units used.
    pub used: u32,
    /// The reply's bytes.
    pub reply: Blob,
    /// The pending changes, in the order of the first write of each place.
    pub writes: Writes,
    /// The variables in scope, in the order of their declarations.
    pub locals: Items<Local>,
}
