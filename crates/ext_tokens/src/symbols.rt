ghost use Rattle.std.specs.Prelude.{◌≡◌, ◌∷◌, [], IfSome, MatchOption};
ghost use Rattle.ext_mean.specs.Tokens.{IsSpelling};
ghost use Rattle.ext_tokens.specs.Symbols as symbols;

use ext_mean::{BinOp, Mark, Token};

/// The symbol of two bytes at the front of a text, by its first byte and those behind it.
pub fn double_at(first: u8, rest: &[u8]) -> Option<Token>
    ensures { MatchOption result (symbols.NoDouble first rest.now)
        (λ token. symbols.IsDouble first rest.now token) }
{
    match rest {
        [second, ..] => double_symbol(first, *second),
        [] => None,
    }
}

/// The symbol of two bytes.
fn double_symbol(first: u8, second: u8) -> Option<Token>
    ensures value { result ≡ symbols.double_symbol first second }
    ensures spelled { IfSome result (λ token. IsSpelling (first ∷ second ∷ []) token) }
{
    match (first, second) {
        (b'-', b'>') => Some(Token::Mark(Mark::Arrow)),
        (b'=', b'>') => Some(Token::Mark(Mark::Arm)),
        (b'|', b'|') => Some(Token::Binary(BinOp::Or)),
        (b'&', b'&') => Some(Token::Binary(BinOp::And)),
        (b'=', b'=') => Some(Token::Binary(BinOp::Equal)),
        (b'!', b'=') => Some(Token::Binary(BinOp::NotEqual)),
        (b'<', b'=') => Some(Token::Binary(BinOp::LessEqual)),
        (b'>', b'=') => Some(Token::Binary(BinOp::GreaterEqual)),
        _ => None,
    }
}

/// The symbol of one byte.
pub fn single_symbol(byte: u8) -> Option<Token>
    ensures value { result ≡ symbols.single_symbol byte }
    ensures spelled { IfSome result (λ token. IsSpelling (byte ∷ []) token) }
{
    match byte {
        b'(' => Some(Token::Mark(Mark::Open)),
        b')' => Some(Token::Mark(Mark::Close)),
        b'{' => Some(Token::Mark(Mark::OpenBlock)),
        b'}' => Some(Token::Mark(Mark::CloseBlock)),
        b',' => Some(Token::Mark(Mark::Comma)),
        b';' => Some(Token::Mark(Mark::Semicolon)),
        b':' => Some(Token::Mark(Mark::Colon)),
        b'=' => Some(Token::Mark(Mark::Assign)),
        _ => single_operator(byte),
    }
}

/// The operator of one byte, or `!`.
fn single_operator(byte: u8) -> Option<Token>
    ensures value { result ≡ symbols.single_operator byte }
    ensures spelled { IfSome result (λ token. IsSpelling (byte ∷ []) token) }
{
    match byte {
        b'!' => Some(Token::Not),
        b'<' => Some(Token::Binary(BinOp::Less)),
        b'>' => Some(Token::Binary(BinOp::Greater)),
        b'+' => Some(Token::Binary(BinOp::Add)),
        b'-' => Some(Token::Binary(BinOp::Subtract)),
        b'*' => Some(Token::Binary(BinOp::Multiply)),
        b'/' => Some(Token::Binary(BinOp::Divide)),
        b'%' => Some(Token::Binary(BinOp::Remainder)),
        _ => None,
    }
}
