ghost use Rattle.std.specs.Prelude.{◌∷◌, ◌↔◌, ℕ, List, IfOk, IsTrue, MatchOption};
ghost use Rattle.ext_tokens.specs.Lexemes.{IsLexeme};
ghost use Rattle.ext_tokens.specs.Strings.{BeginsByItem, IsClosed};

use crate::bytes::{hex_value, is_plain};
use crate::lexeme::Lexeme;
use ext_mean::Token;
use sp_base::{Blob, Memory};
use std::alloc::Global;

/// The byte string behind its first `"`.
pub fn string(alloc: Global, inner: &[u8]) -> Result<Lexeme, Memory>
    ensures { IfOk result (IsLexeme (0x22 ∷ inner.now)) }
{
    let mut items = Vec::new(alloc);
    let mut rest = inner;
    while let Some((item, behind)) = first_item(rest) {
        items.push(item)?;
        rest = behind;
    }
    if !is_closed(rest) {
        return Ok(Lexeme::Nothing);
    }
    let size = inner.len() - rest.len() + 2;
    Ok(Lexeme::Token(Token::Str(Blob::from_vec(items)), size))
}

/// Whether a `"` is at the front.
fn is_closed(bytes: &[u8]) -> bool
    ensures { IsTrue result ↔ IsClosed bytes.now }
{
    match bytes {
        [first, ..] => *first == b'"',
        [] => false,
    }
}

/// The item at the front of a byte string, and what stands behind it.
fn first_item(bytes: &[u8]) -> Option<(u8, &[u8])>
    ensures { MatchOption result
        ((item : ℕ) (rest : List ℕ) → BeginsByItem bytes.now item rest → ⊥)
        (λ found. BeginsByItem bytes.now found.0 found.1.now) }
{
    match bytes {
        [b'\\', rest @ ..] => escaped_item(rest),
        [byte, rest @ ..] => {
            if is_plain(*byte) {
                Some((*byte, rest))
            } else {
                None
            }
        }
        [] => None,
    }
}

/// The item that is written by its digits, behind its `\`.
fn escaped_item(bytes: &[u8]) -> Option<(u8, &[u8])>
    ensures { MatchOption result
        ((item : ℕ) (rest : List ℕ) → BeginsByItem (0x5c ∷ bytes.now) item rest → ⊥)
        (λ found. BeginsByItem (0x5c ∷ bytes.now) found.0 found.1.now) }
{
    match bytes {
        [b'x', high, low, rest @ ..] => match (hex_value(*high), hex_value(*low)) {
            (Some(high), Some(low)) => Some((16 * high + low, rest)),
            _ => None,
        },
        _ => None,
    }
}
