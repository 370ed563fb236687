ghost use Rattle.std.specs.Prelude.{◌≡◌, ◌∷◌, IfOk, Some};
ghost use Rattle.ext_tokens.specs.declared.lexeme.Class.TheVariants as kind;
ghost use Rattle.ext_tokens.specs.Lexemes as lexemes;
ghost use Rattle.ext_tokens.specs.Lexemes.{IsLexeme, front_class};

use crate::bytes::{is_digit, is_lower, name_length};
use crate::numbers::number;
use crate::strings::string;
use crate::symbols::{double_at, single_symbol};
use crate::words::word_of;
use ext_mean::{Name, Token};
use sp_base::Memory;
use std::alloc::Global;

/// The greatest length of a name, in bytes.
const LONGEST_NAME: usize = 32;

/// The class of a token, which its first byte tells.
#[derive(Clone, Copy)]
pub enum Class {
    /// A word of the language or a name.
    Word,
    Number,
    Str,
    /// A mark or an operator.
    Symbol,
}

/// What stands at the front of a text.
#[derive(Drop)]
pub enum Lexeme {
    /// A token, of so many bytes.
    Token(Token, usize),
    /// A name of more than 32 bytes, or a number of 2^64 or more.
    TooLong,
    /// No token of the language.
    Nothing,
}

/// The longest token at the front of a text.
pub fn read_lexeme(alloc: Global, bytes: &[u8]) -> Result<Lexeme, Memory>
    ensures { IfOk result (IsLexeme bytes.now) }
{
    match bytes {
        [] => Ok(Lexeme::Nothing),
        [first, rest @ ..] => match byte_class(*first) {
            Class::Word => word_or_name(alloc, bytes),
            Class::Number => Ok(number(bytes)),
            Class::Str => string(alloc, rest),
            Class::Symbol => Ok(symbol(*first, rest)),
        },
    }
}

/// The class of the tokens that may begin with the byte.
fn byte_class(byte: u8) -> Class
    ensures { result ≡ lexemes.byte_class byte }
{
    if byte == b'"' {
        Class::Str
    } else if is_lower(byte) {
        Class::Word
    } else if is_digit(byte) {
        Class::Number
    } else {
        Class::Symbol
    }
}

/// The word or the name at the front of a text that begins with a lower-case letter.
fn word_or_name(alloc: Global, bytes: &[u8]) -> Result<Lexeme, Memory>
    requires { front_class bytes.now ≡ Some kind.Word }
    ensures { IfOk result (IsLexeme bytes.now) }
{
    let size = name_length(bytes);
    let (spelling, _) = bytes.split_at(size);
    match word_of(spelling) {
        Some(word) => Ok(Lexeme::Token(Token::Word(word), size)),
        None if size > LONGEST_NAME => Ok(Lexeme::TooLong),
        None => {
            let name = Name::of(alloc, spelling)?;
            Ok(Lexeme::Token(Token::Name(name), size))
        }
    }
}

/// The mark or the operator at the front of a text, by its first byte and those behind it.
fn symbol(first: u8, rest: &[u8]) -> Lexeme
    requires { lexemes.byte_class first ≡ kind.Symbol }
    ensures { IsLexeme (first ∷ rest.now) result }
{
    match double_at(first, rest) {
        Some(token) => Lexeme::Token(token, 2),
        None => match single_symbol(first) {
            Some(token) => Lexeme::Token(token, 1),
            None => Lexeme::Nothing,
        },
    }
}
