ghost use Rattle.std.specs.Prelude.{◌≡◌, ◌≤◌, ◌<◌, List, ℕ, IfOk, IfErr, MatchResult, Err, length};
ghost use Rattle.ext_mean.specs.declared.codes.SyntaxCode.{SyntaxCode};
ghost use Rattle.ext_mean.specs.declared.tree.Program.{Program};
ghost use Rattle.ext_mean.specs.SyntaxFaults.{SyntaxFault};
ghost use Rattle.ext_mean.specs.Text.{EndsLine, SpellsAt};
ghost use Rattle.ext_mean.specs.Tokens as spelling;
ghost use Rattle.ext_parse.specs.Faults.{Explains, Tells};

use crate::fault::ParseFault;
use crate::parsed::Parsed;
use crate::reading::read_program;
use ext_mean::SyntaxCode;
use ext_tokens::{ends_line, scan_text};
use sp_base::MOST_TEXT;
use std::alloc::Global;

/// The program that a text spells, with the line of each item, or the text's first fault.
pub fn parse(alloc: Global, text: &[u8]) -> Result<Parsed, ParseFault>
    // What is read is spelled by the text, with its items on these lines.
    ensures found { IfOk result (λ parsed. SpellsAt text.now parsed.program parsed.lines.items) }
    // What the text spells is read, unless memory runs out.
    ensures only { (program : Program) (lines : List ℕ) → SpellsAt text.now program lines →
        MatchResult result (λ parsed. (parsed.program ≡ program) × (parsed.lines.items ≡ lines))
        (λ e. e ≡ ParseFault.Memory) }
    // A fault is the text's first one, with its line and its code.
    ensures fault { IfErr result (λ e. Explains text.now e) }
    // The text's first fault is told, unless memory runs out.
    ensures only_fault { (line : ℕ) (code : SyntaxCode) → SyntaxFault text.now line code → Tells result line code }
{
    parse_text(alloc, text)
}

/// The same, by what is told alone.
fn parse_text(alloc: Global, text: &[u8]) -> Result<Parsed, ParseFault>
    ensures found { IfOk result (λ parsed. SpellsAt text.now parsed.program parsed.lines.items) }
    ensures only { (program : Program) (lines : List ℕ) → SpellsAt text.now program lines →
        MatchResult result (λ parsed. (parsed.program ≡ program) × (parsed.lines.items ≡ lines))
        (λ e. e ≡ ParseFault.Memory) }
    ensures fault { IfErr result (λ e. Explains text.now e) }
{
    if text.len() > MOST_TEXT {
        return Err(fault(1, SyntaxCode::Long));
    }
    if text.is_empty() {
        return Err(fault(1, SyntaxCode::Expected));
    }
    if !ends_line(text) {
        return Err(fault(newlines(text) + 1, SyntaxCode::Expected));
    }
    parse_lines(alloc, text)
}

/// The same for a text of whole lines.
fn parse_lines(alloc: Global, text: &[u8]) -> Result<Parsed, ParseFault>
    requires size { length text.now ≤ MOST_TEXT }
    requires lines { EndsLine text.now }
    ensures found { IfOk result (λ parsed. SpellsAt text.now parsed.program parsed.lines.items) }
    ensures only { (program : Program) (lines : List ℕ) → SpellsAt text.now program lines →
        MatchResult result (λ parsed. (parsed.program ≡ program) × (parsed.lines.items ≡ lines))
        (λ e. e ≡ ParseFault.Memory) }
    ensures fault { IfErr result (λ e. Explains text.now e) }
{
    let scanned = scan_text(alloc, text)?;
    read_program(alloc, scanned.tokens.as_slice(), scanned.end)
}

fn fault(line: u32, code: SyntaxCode) -> ParseFault
    ensures { result ≡ ParseFault.Syntax line code }
{
    ParseFault::Syntax { line, code }
}

/// The newlines of a text.
fn newlines(text: &[u8]) -> u32
    requires { length text.now ≤ MOST_TEXT }
    ensures count { result ≡ spelling.newlines text.now }
    ensures few { result ≤ length text.now }
{
    let mut count = 0;
    for byte in text {
        if *byte == b'\n' {
            count += 1;
        }
    }
    count
}
