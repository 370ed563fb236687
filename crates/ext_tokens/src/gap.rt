ghost use Rattle.std.specs.Prelude.{◌≡◌, ◌≤◌, ◌∷◌, [], drop, length, take};
ghost use Rattle.ext_mean.specs.Tokens.{newlines};
ghost use Rattle.ext_tokens.specs.Gaps as gaps;

use crate::bytes::{is_blank, is_text_byte};

/// What stands between two tokens.
#[derive(Clone, Copy)]
pub struct Gap {
    /// Its bytes.
    pub size: usize,
    /// The newlines among them.
    pub lines: u32,
    /// Whether a comment is open behind it, which does not go on.
    pub in_comment: bool,
}

/// The blanks and comments at the front.
pub fn skip_gap(bytes: &[u8]) -> Gap
    requires { length bytes.now ≤ 16384 }
    ensures size { result.size ≤ length bytes.now }
    ensures passed { gaps.IsPassed result.in_comment (take result.size bytes.now) }
    ensures stops { gaps.Stops result.in_comment (drop result.size bytes.now) }
    ensures lines { result.lines ≡ newlines (take result.size bytes.now) }
{
    let mut in_comment = false;
    let mut lines = 0;
    for (size, byte) in bytes.iter().enumerate() {
        if stops_at(in_comment, *byte) {
            return Gap {
                size,
                lines,
                in_comment,
            };
        }
        in_comment = comment_with(in_comment, *byte);
        lines += line_ends(*byte);
    }
    Gap {
        size: bytes.len(),
        lines,
        in_comment,
    }
}

/// Whether a gap, or a comment in it, does not go on with the byte.
fn stops_at(in_comment: bool, byte: u8) -> bool
    ensures { result ≡ gaps.stops_at in_comment byte }
{
    if in_comment {
        !is_text_byte(byte)
    } else {
        !is_blank(byte) && byte != b'#'
    }
}

/// Whether a comment is open behind the byte.
fn comment_with(in_comment: bool, byte: u8) -> bool
    ensures { result ≡ gaps.comment_with in_comment byte }
{
    byte != b'\n' && (in_comment || byte == b'#')
}

/// The lines that the byte ends: one or none.
fn line_ends(byte: u8) -> u32
    ensures value { result ≡ newlines (byte ∷ []) }
    ensures few { result ≤ 1 }
{
    if byte == b'\n' { 1 } else { 0 }
}
