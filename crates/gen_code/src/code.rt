use crate::op::Op;
use sqlite_items::Items;

/// The code of one function.
#[derive(Debug, Drop)]
pub struct CodeFn {
    /// How many parameters it has, which are its first slots.
    pub params: u16,
    /// How many variables it declares in all, its parameters among them.
    pub locals: u16,
    pub ops: Items<Op>,
}

/// The code of a program: its functions in order, of which the last is `main`.
#[derive(Debug, Drop)]
pub struct Code {
    pub functions: Items<CodeFn>,
}
