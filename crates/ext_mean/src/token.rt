use crate::expr::BinOp;
use crate::name::Name;
use sp_base::Blob;

/// A word of the language, which is no name.
#[derive(Clone, Copy, Debug, PartialEq, Eq)]
pub enum Word {
    Fn,
    Let,
    If,
    Else,
    While,
    Get,
    Multiget,
    Some,
    None,
    Set,
    Set8,
    Copy,
    Put,
    Del,
    Resp,
    Return,
    Int,
    Bool,
    Slice,
    Buf,
    Temp,
    True,
    False,
    Args,
    Len,
    Byte,
    U64,
    Sub,
    View,
    Alloc,
}

/// A mark that is no operator.
#[derive(Clone, Copy, Debug, PartialEq, Eq)]
pub enum Mark {
    /// `(`
    Open,
    /// `)`
    Close,
    /// `{`
    OpenBlock,
    /// `}`
    CloseBlock,
    Comma,
    Semicolon,
    Colon,
    /// `=`
    Assign,
    /// `->`
    Arrow,
    /// `=>`
    Arm,
}

/// A token of a text.
#[derive(Debug, Drop)]
pub enum Token {
    Word(Word),
    Name(Name),
    Number(u64),
    /// A byte string, by its items.
    Str(Blob),
    Mark(Mark),
    /// `!`
    Not,
    Binary(BinOp),
}

/// A token with the line of its first byte, counted from 1.
#[derive(Debug, Drop)]
pub struct Placed {
    pub token: Token,
    pub line: u32,
}
