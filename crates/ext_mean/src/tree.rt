use crate::name::Name;
use crate::statement::{Block, Kind};
use sqlite_items::Items;

/// An extension: its functions, of which the last is `main`.
#[derive(Drop)]
pub struct Program {
    pub functions: Items<Function>,
}

/// `fn name(params) -> result { .. }`
#[derive(Drop)]
pub struct Function {
    pub name: Name,
    pub params: Items<Param>,
    pub result: Kind,
    pub body: Block,
}

/// `name: kind`
#[derive(Drop)]
pub struct Param {
    pub name: Name,
    pub kind: Kind,
}
