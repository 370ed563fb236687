/// Why an item has no type, in the order in which one code goes before another.
#[derive(Clone, Copy, Debug, PartialEq, Eq)]
pub enum TypeCode {
    /// A variable that is not in scope, or a called function that the program does not have.
    NoName,
    /// A called function that is not declared before the function that calls it.
    Order,
    /// A name that is declared a second time.
    Twice,
    /// A call with another number of arguments than parameters.
    Count,
    /// An expression without a type, or of another type than its place asks.
    Kind,
    /// A function whose block does not end with `return`.
    NoReturn,
    /// The last function is not `main` without parameters and with result `int`.
    Main,
}

/// Why an item breaks the rules of ownership, in the order in which one code goes before another.
#[derive(Clone, Copy, Debug, PartialEq, Eq)]
pub enum BorrowCode {
    /// It uses a buffer that is gone, or may be gone in the next turn of a loop.
    Moved,
    /// It changes, moves or assigns a buffer of which a slice may still be read.
    Frozen,
    /// A slice may outlive the buffer from which it borrows.
    Outlived,
    /// A call moves a buffer and borrows from it.
    MoveAndBorrow,
}
