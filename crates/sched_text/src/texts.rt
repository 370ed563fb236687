//! The lines of a text.

ghost use Rattle.std.specs.Prelude.{◌≡◌, ◌≢◌, ◌≤◌, ◌<◌, true, false, [], take, drop, length, IfSome, MatchOption};
ghost use Rattle.std.specs.List.{concat};
ghost use Rattle.sched_text.specs.Firsts.{BeginsWith};
ghost use Rattle.sched_text.specs.Texts.{lines_of, has_lines, is_skipped};
ghost use Rattle.sched_text.specs.Ends.{IsEnd};

use crate::fields::cut;

/// The first line of a text, without its newline, and what is behind it, if there is a line.
#[tactic(auto, using(crate::proofs::TextLines::first_cut, crate::proofs::TextLines::first_uncut, crate::proofs::TextLines::cut_shorter))]
pub fn first_line(text: &[u8]) -> Option<(&[u8], &[u8])>
    ensures line { MatchOption result (text.now ≡ []) (λ parts. BeginsWith text.now parts.0.now parts.1.now) }
    ensures shorter { IfSome result (λ parts. length parts.1.now < length text.now) }
{
    if text.is_empty() {
        return None;
    }
    let (line, after) = cut(text, b'\n');
    match after {
        Some(behind) => Some((line, behind)),
        None => Some((line, &[])),
    }
}

/// Whether a line is passed over: an empty one, or a comment.
pub fn is_skipped(line: &[u8]) -> bool
    ensures { result ≡ is_skipped line.now }
{
    matches!(line, [] | [b'#', ..])
}

/// Where the first `count` lines of a text end, if they are there, each with its newline.
#[tactic(auto, using(crate::proofs::TextLines::passed_none, crate::proofs::TextLines::passed_all))]
pub fn end_of_lines(text: &[u8], count: u32) -> Option<usize>
    ensures { MatchOption result (has_lines count (lines_of text.now) ≡ false) (λ end. IsEnd count text.now end) }
{
    let mut rest = text;
    for _ in 0..count {
        let (_, after) = cut(rest, b'\n');
        match after {
            Some(behind) => rest = behind,
            None => return None,
        }
    }
    Some(text.len() - rest.len())
}

/// What is behind the first `count` lines of a text, which are there.
pub fn behind_lines(text: &[u8], count: u32) -> &[u8]
    requires { has_lines count (lines_of text.now) ≡ true }
    ensures lines { lines_of result.now ≡ drop count (lines_of text.now) }
    ensures shorter { length result.now ≤ length text.now }
{
    match end_of_lines(text, count) {
        Some(end) => &text[end..],
        None => unreachable!(),
    }
}
