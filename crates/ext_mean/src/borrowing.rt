use crate::name::Name;
use crate::statement::Kind;

/// A variable of a function: one declaration, told apart by its number in text order.
#[derive(Debug, Drop)]
pub struct Variable {
    pub name: Name,
    pub kind: Kind,
    /// How many declarations of the function stand before it.
    pub number: usize,
}

/// Where a slice comes from.
#[derive(Clone, Copy, Debug, PartialEq, Eq)]
pub enum Origin {
    /// It borrows from nothing.
    Nothing,
    /// `view(b)` of the variable with this number.
    View(usize),
    /// The slice variable with this number.
    Slice(usize),
}

/// A value that a `let` or `=` gives a variable.
#[derive(Clone, Copy, Debug, PartialEq, Eq)]
pub struct Gift {
    /// The variable's number.
    pub to: usize,
    pub origin: Origin,
}
