use crate::expr::Expr;
use crate::name::Name;
use sqlite_items::Items;

/// The type of a variable, a parameter or a result.
#[derive(Clone, Copy, Debug, PartialEq, Eq)]
pub enum Kind {
    Int,
    Bool,
    Slice,
    Buf,
    Temp,
}

/// The statements between two braces. A `return` is its last one.
#[cycle(tree)]
#[derive(Drop)]
pub struct Block {
    pub items: Items<Statement>,
}

/// A statement. An absent `else` is an empty block.
#[cycle(tree)]
#[derive(Drop)]
pub enum Statement {
    /// `let name: kind = value;`
    Let {
        name: Name,
        kind: Kind,
        value: Expr,
    },
    /// `let name: kind = function(args);`
    LetCall {
        name: Name,
        kind: Kind,
        function: Name,
        args: Items<Expr>,
    },
    /// `name = value;`
    Assign {
        name: Name,
        value: Expr,
    },
    /// `if test { yes } else { no }`
    If {
        test: Expr,
        yes: Block,
        no: Block,
    },
    /// `while test { body }`
    While {
        test: Expr,
        body: Block,
    },
    /// `get(table, key) { some s => { yes } none => { no } }`
    Get {
        table: Expr,
        key: Expr,
        some: Name,
        yes: Block,
        no: Block,
    },
    /// `multiget(table, keys, width) { some s => { yes } none => { no } }`
    Multi {
        table: Expr,
        keys: Expr,
        width: Expr,
        some: Name,
        yes: Block,
        no: Block,
    },
    /// `set(name, place, value);`: one byte.
    Set {
        name: Name,
        place: Expr,
        value: Expr,
    },
    /// `set8(name, place, value);`: eight bytes, little endian.
    Set8 {
        name: Name,
        place: Expr,
        value: Expr,
    },
    /// `copy(name, place, source);`
    Copy {
        name: Name,
        place: Expr,
        source: Expr,
    },
    /// `put(name);`: the buffer becomes the change at its place.
    Put {
        name: Name,
    },
    /// `del(table, key);`
    Del {
        table: Expr,
        key: Expr,
    },
    /// `resp(value);`: the bytes join the reply.
    Resp {
        value: Expr,
    },
    /// `return value;`
    Return {
        value: Expr,
    },
}
