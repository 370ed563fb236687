use crate::name::Name;
use sp_base::Blob;
use sqlite_items::Boxed;

/// An operator between two operands.
#[derive(Clone, Copy, Debug, PartialEq, Eq)]
pub enum BinOp {
    /// `||`, which leaves out its right side where the left is true.
    Or,
    /// `&&`, which leaves out its right side where the left is false.
    And,
    Equal,
    NotEqual,
    Less,
    LessEqual,
    Greater,
    GreaterEqual,
    Add,
    Subtract,
    Multiply,
    Divide,
    Remainder,
}

/// An expression, without its parentheses.
#[derive(Drop)]
pub enum Expr {
    Number(u64),
    /// A byte string.
    Str(Blob),
    Truth(bool),
    Var(Name),
    /// `args()`: the arguments of the call.
    Args,
    Len(Boxed<Expr>),
    /// `view(b)`: the bytes of a buffer.
    View(Name),
    /// `temp(n)`: a buffer with no place.
    Temp(Boxed<Expr>),
    /// `byte(s, i)`
    Byte(Boxed<Expr>, Boxed<Expr>),
    /// `u64(s, i)`: eight bytes, little endian.
    Word(Boxed<Expr>, Boxed<Expr>),
    /// `sub(s, from, n)`: the `n` bytes from a place on.
    Sub(Boxed<Expr>, Boxed<Expr>, Boxed<Expr>),
    /// `alloc(t, k, n)`: a buffer for the record of table `t` with key `k`.
    Alloc(Boxed<Expr>, Boxed<Expr>, Boxed<Expr>),
    Not(Boxed<Expr>),
    Bin(BinOp, Boxed<Expr>, Boxed<Expr>),
}
