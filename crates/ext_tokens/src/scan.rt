ghost use Rattle.std.specs.Prelude.{◌≡◌, ◌≤◌, ◌↔◌, IfOk, IsTrue, length};
ghost use Rattle.ext_mean.specs.Bounds as bounds;
ghost use Rattle.ext_mean.specs.Text.{EndsLine};
ghost use Rattle.ext_tokens.specs.Scanning.{IsScanned};

use crate::next::{Next, next_token};
use ext_mean::{Mark, Placed, SyntaxCode, Token};
use sp_base::Memory;
use std::alloc::Global;

/// The greatest number of brackets that may be open at once.
const MOST_OPEN: usize = 32;

/// What stands behind the last token that was read.
#[derive(Clone, Copy, Debug, PartialEq, Eq)]
pub enum End {
    /// The end of a text of so many lines.
    Text(u32),
    /// A place that is faulty whatever stands before it, by its line and its code.
    Fault(u32, SyntaxCode),
}

/// The tokens of a text up to its end, or to the first place that is faulty by itself.
#[derive(Drop)]
pub struct Scanned {
    pub tokens: Vec<Placed>,
    pub end: End,
}

/// Reads the tokens of a text of whole lines from left to right.
pub fn scan_text(alloc: Global, text: &[u8]) -> Result<Scanned, Memory>
    requires size { length text.now ≤ 16384 }
    requires lines { EndsLine text.now }
    ensures { IfOk result (IsScanned text.now) }
{
    let mut tokens = Vec::new(alloc);
    let mut rest = text;
    let mut line = 1;
    let mut brackets = 0;
    'tokens: loop {
        let next = next_token(alloc, rest, line)?;
        match next {
            Next::End(end) => return Ok(Scanned { tokens, end }),
            Next::Token(placed, size) => {
                if is_too_deep(brackets, &placed.token) {
                    let end = End::Fault(placed.line, SyntaxCode::Deep);
                    return Ok(Scanned { tokens, end });
                }
                brackets = open_with(brackets, &placed.token);
                line = placed.line;
                tokens.push(placed)?;
                let (_, behind) = rest.split_at(size);
                rest = behind;
            }
        }
    }
}

/// Whether the token opens a bracket more than may be open, where so many are open before it.
fn is_too_deep(brackets: usize, token: &Token) -> bool
    ensures { IsTrue result ↔ (IsTrue (bounds.is_opening token.now) × (32 ≤ brackets)) }
{
    brackets >= MOST_OPEN && is_opening(token)
}

/// Whether the token opens a bracket.
fn is_opening(token: &Token) -> bool
    ensures { result ≡ bounds.is_opening token.now }
{
    match token {
        Token::Mark(Mark::Open) | Token::Mark(Mark::OpenBlock) => true,
        _ => false,
    }
}

/// The brackets that are open with the token, where so many were open before it.
fn open_with(brackets: usize, token: &Token) -> usize
    requires { brackets ≤ 32 }
    ensures { result ≡ bounds.open_with brackets token.now }
{
    match token {
        Token::Mark(Mark::Open) | Token::Mark(Mark::OpenBlock) => brackets + 1,
        Token::Mark(Mark::Close) | Token::Mark(Mark::CloseBlock) => brackets.saturating_sub(1),
        _ => brackets,
    }
}
