ghost use Rattle.std.specs.Prelude.{◌≡◌, ◌≤◌, ◌+◌, ◌-◌, ◌*◌, ◌^◌, ◌↔◌, false, IsTrue, Some, MatchOption};
ghost use Rattle.ext_mean.specs.Tokens as spelling;
ghost use Rattle.ext_tokens.specs.declared.lexeme.Class.TheVariants as kind;
ghost use Rattle.ext_tokens.specs.Lexemes.{IsLexeme, front_class};

use crate::bytes::{digits_length, is_word_byte};
use crate::lexeme::Lexeme;
use ext_mean::Token;

/// The number at the front of a text that begins with a digit.
pub fn number(bytes: &[u8]) -> Lexeme
    requires { front_class bytes.now ≡ Some kind.Number }
    ensures { IsLexeme bytes.now result }
{
    let size = digits_length(bytes);
    let (digits, rest) = bytes.split_at(size);
    if !is_number(digits, rest) {
        return Lexeme::Nothing;
    }
    match value(digits) {
        Some(value) => Lexeme::Token(Token::Number(value), size),
        None => Lexeme::TooLong,
    }
}

/// Whether digits, with the rest behind them, are a number.
fn is_number(digits: &[u8], rest: &[u8]) -> bool
    requires { IsTrue (spelling.all_pass spelling.is_digit digits.now) }
    ensures { IsTrue result ↔ (IsTrue (spelling.is_numeral digits.now)
        × (spelling.begins_word rest.now ≡ false)) }
{
    is_numeral(digits) && !begins_word(rest)
}

/// Whether digits are one, or have no leading zero.
fn is_numeral(digits: &[u8]) -> bool
    requires { IsTrue (spelling.all_pass spelling.is_digit digits.now) }
    ensures { result ≡ spelling.is_numeral digits.now }
{
    match digits {
        [] => false,
        [_] => true,
        [first, ..] => *first != b'0',
    }
}

/// Whether a byte is at the front that may not follow a number.
fn begins_word(bytes: &[u8]) -> bool
    ensures { result ≡ spelling.begins_word bytes.now }
{
    match bytes {
        [first, ..] => is_word_byte(*first),
        [] => false,
    }
}

/// The number that the digits stand for, below 2^64.
fn value(digits: &[u8]) -> Option<u64>
    ensures { MatchOption result (2 ^ 64 ≤ spelling.digits_from 0 digits.now)
        (λ value. value ≡ spelling.digits_from 0 digits.now) }
{
    let mut value = 0u64;
    for digit in digits {
        match with_digit(value, *digit) {
            Some(more) => value = more,
            None => return None,
        }
    }
    Some(value)
}

/// A number with one digit more.
fn with_digit(value: u64, digit: u8) -> Option<u64>
    ensures { let more = value * 10 + (digit - 0x30) in
        MatchOption result (2 ^ 64 ≤ more) (λ found. found ≡ more) }
{
    let tens = value.checked_mul(10)?;
    tens.checked_add(u64::from(digit.saturating_sub(b'0')))
}
