ghost use Rattle.std.specs.Prelude.{◌≡◌};
ghost use Rattle.ext_mean.specs.Refusals.{borrow_number, borrow_word, refusal_number, refusal_word, syntax_number, syntax_word, type_number, type_word};

use crate::check_codes::{BorrowCode, TypeCode};
use crate::codes::SyntaxCode;

/// Why an extension is refused: by the grammar, by the types, or by the rules of ownership.
#[derive(Clone, Copy, Debug, PartialEq, Eq)]
pub enum Refusal {
    Syntax(SyntaxCode),
    Types(TypeCode),
    Borrows(BorrowCode),
}

impl Refusal {
    /// The code's name, as lines tell it.
    pub fn word(self) -> &'static [u8]
        ensures { result.now ≡ refusal_word self }
    {
        match self {
            Refusal::Syntax(code) => syntax_word(code),
            Refusal::Types(code) => type_word(code),
            Refusal::Borrows(code) => borrow_word(code),
        }
    }

    /// The code's number, as messages tell it: from 1 to 16.
    pub fn number(self) -> u8
        ensures { result ≡ refusal_number self }
    {
        match self {
            Refusal::Syntax(code) => syntax_number(code),
            Refusal::Types(code) => type_number(code),
            Refusal::Borrows(code) => borrow_number(code),
        }
    }
}

fn syntax_word(code: SyntaxCode) -> &'static [u8]
    ensures { result.now ≡ syntax_word code }
{
    match code {
        SyntaxCode::Token => b"Token",
        SyntaxCode::Long => b"Long",
        SyntaxCode::Deep => b"Deep",
        SyntaxCode::Many => b"Many",
        SyntaxCode::Expected => b"Expected",
    }
}

fn type_word(code: TypeCode) -> &'static [u8]
    ensures { result.now ≡ type_word code }
{
    match code {
        TypeCode::NoName => b"NoName",
        TypeCode::Order => b"Order",
        TypeCode::Twice => b"Twice",
        TypeCode::Count => b"Count",
        TypeCode::Kind => b"Kind",
        TypeCode::NoReturn => b"NoReturn",
        TypeCode::Main => b"Main",
    }
}

fn borrow_word(code: BorrowCode) -> &'static [u8]
    ensures { result.now ≡ borrow_word code }
{
    match code {
        BorrowCode::Moved => b"Moved",
        BorrowCode::Frozen => b"Frozen",
        BorrowCode::Outlived => b"Outlived",
        BorrowCode::MoveAndBorrow => b"MoveAndBorrow",
    }
}

fn syntax_number(code: SyntaxCode) -> u8
    ensures { result ≡ syntax_number code }
{
    match code {
        SyntaxCode::Token => 1,
        SyntaxCode::Long => 2,
        SyntaxCode::Deep => 3,
        SyntaxCode::Many => 4,
        SyntaxCode::Expected => 5,
    }
}

fn type_number(code: TypeCode) -> u8
    ensures { result ≡ type_number code }
{
    match code {
        TypeCode::NoName => 6,
        TypeCode::Order => 7,
        TypeCode::Twice => 8,
        TypeCode::Count => 9,
        TypeCode::Kind => 10,
        TypeCode::NoReturn => 11,
        TypeCode::Main => 12,
    }
}

fn borrow_number(code: BorrowCode) -> u8
    ensures { result ≡ borrow_number code }
{
    match code {
        BorrowCode::Moved => 13,
        BorrowCode::Frozen => 14,
        BorrowCode::Outlived => 15,
        BorrowCode::MoveAndBorrow => 16,
    }
}
