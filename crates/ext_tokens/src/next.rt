ghost use Rattle.std.specs.Prelude.{◌≤◌, ◌+◌, IfOk, length};
ghost use Rattle.ext_mean.specs.Tokens.{newlines};
ghost use Rattle.ext_tokens.specs.Next.{IsNext};

use crate::gap::skip_gap;
use crate::lexeme::{Lexeme, read_lexeme};
use crate::scan::End;
use ext_mean::{Placed, SyntaxCode};
use sp_base::Memory;
use std::alloc::Global;

/// What comes next in a text.
#[derive(Drop)]
pub enum Next {
    /// A token that is not too long, and how many bytes there are up to its end.
    Token(Placed, usize),
    /// The end of the text, or a fault.
    End(End),
}

/// What comes next, where the first byte is on this line.
pub fn next_token(alloc: Global, bytes: &[u8], line: u32) -> Result<Next, Memory>
    requires size { length bytes.now ≤ 16384 }
    requires begun { 1 ≤ line }
    requires lines { line + newlines bytes.now ≤ 16385 }
    ensures { IfOk result (IsNext bytes.now line) }
{
    let gap = skip_gap(bytes);
    let (_, rest) = bytes.split_at(gap.size);
    let line = line + gap.lines;
    if rest.is_empty() {
        return Ok(Next::End(End::Text(line - 1)));
    }
    if gap.in_comment {
        return Ok(Next::End(End::Fault(line, SyntaxCode::Token)));
    }
    let lexeme = read_lexeme(alloc, rest)?;
    match lexeme {
        Lexeme::Token(token, size) => Ok(Next::Token(Placed { token, line }, gap.size + size)),
        Lexeme::TooLong => Ok(Next::End(End::Fault(line, SyntaxCode::Long))),
        Lexeme::Nothing => Ok(Next::End(End::Fault(line, SyntaxCode::Token))),
    }
}
