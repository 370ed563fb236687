//! The canonical text: first the tokens of the tree, then their bytes.

ghost use Rattle.std.specs.Prelude.{◌≡◌, ◌<◌, ◌≤◌, ◌++◌, [], ◌∷◌, ℕ, List, length, false, IfOk, OnOk, if◌then◌else◌};
ghost use Rattle.std.specs.Fmt.{decimal};
ghost use Rattle.std.specs.List.{flat_map};
ghost use Rattle.ext_mean.specs.Canonical as canon;
ghost use Rattle.ext_mean.specs.Text.{Spells};
ghost use Rattle.ext_mean.specs.Tokens as spelling;

use crate::shown_functions::show_program;
use crate::symbols::{mark_bytes, operator_bytes};
use ext_mean::{Program, Token};
use ext_tokens::{is_plain, letters};
use sp_base::{Blob, Memory};
use sqlite_items::Items;
use std::alloc::Global;

/// The canonical text of a program.
pub fn print(alloc: Global, program: &Program) -> Result<Blob, Memory>
    ensures canonical { IfOk result (λ text. text ≡ canon.canonical program.now) }
    // Where any text spells the program, this one spells it too, and is no longer.
    ensures spelled { (source : List ℕ) → Spells source program.now → IfOk result (λ text. Spells text program.now) }
    ensures short { (source : List ℕ) → Spells source program.now → IfOk result (λ text. length text ≤ length source) }
{
    canonical_text(alloc, program)
}

fn canonical_text(alloc: Global, program: &Program) -> Result<Blob, Memory>
    ensures { IfOk result (λ text. text ≡ canon.canonical program.now) }
{
    let mut tokens = Items::new(alloc);
    show_program(alloc, &mut tokens, program)?;
    let mut text = Vec::new(alloc);
    write_tokens(alloc, &mut text, tokens.as_slice())?;
    text.push(b'\n')?;
    Ok(Blob::from_vec(text))
}

/// Writes the bytes of the tokens, with a space only between two that are names, words or numbers.
fn write_tokens(alloc: Global, text: &mut Vec<u8>, tokens: &[Token]) -> Result<(), Memory>
    ensures { OnOk result (text.new.items ≡ text.old.items ++ canon.written false tokens.now) }
{
    let mut wordy = false;
    for token in tokens {
        let next = is_wordy(token);
        write_space(text, wordy && next)?;
        write_token(alloc, text, token)?;
        wordy = next;
    }
    Ok(())
}

fn write_space(text: &mut Vec<u8>, is_wanted: bool) -> Result<(), Memory>
    ensures { OnOk result (text.new.items ≡ text.old.items ++ (if is_wanted then (0x20 ∷ []) else [])) }
{
    if is_wanted {
        text.push(b' ')?;
    }
    Ok(())
}

/// Whether a token is a name, a word or a number.
fn is_wordy(token: &Token) -> bool
    ensures { result ≡ canon.is_wordy token.now }
{
    match token {
        Token::Word(_) | Token::Name(_) | Token::Number(_) => true,
        _ => false,
    }
}

fn write_token(alloc: Global, text: &mut Vec<u8>, token: &Token) -> Result<(), Memory>
    ensures { OnOk result (text.new.items ≡ text.old.items ++ canon.token_bytes token.now) }
{
    match token {
        Token::Word(word) => text.extend_from_slice(letters(*word))?,
        Token::Name(name) => text.extend_from_slice(name.bytes())?,
        Token::Number(value) => write_number(alloc, text, *value)?,
        Token::Str(items) => write_string(text, items.bytes())?,
        Token::Mark(mark) => text.extend_from_slice(mark_bytes(*mark))?,
        Token::Not => text.push(b'!')?,
        Token::Binary(operator) => text.extend_from_slice(operator_bytes(*operator))?,
    }
    Ok(())
}

/// Writes a number in decimal.
fn write_number(alloc: Global, text: &mut Vec<u8>, value: u64) -> Result<(), Memory>
    ensures { OnOk result (text.new.items ≡ text.old.items ++ decimal value) }
{
    let digits = value.to_string(alloc)?;
    text.extend_from_slice(digits.as_bytes())?;
    Ok(())
}

/// Writes a byte string between its two `"`.
fn write_string(text: &mut Vec<u8>, items: &[u8]) -> Result<(), Memory>
    ensures { OnOk result (text.new.items ≡ text.old.items ++ 0x22 ∷ (flat_map canon.shown_byte items.now ++ 0x22 ∷ [])) }
{
    text.push(b'"')?;
    for byte in items {
        write_byte(text, *byte)?;
    }
    text.push(b'"')?;
    Ok(())
}

/// Writes a byte as itself where it may stand so, else by its two hexadecimal digits.
fn write_byte(text: &mut Vec<u8>, byte: u8) -> Result<(), Memory>
    ensures { OnOk result (text.new.items ≡ text.old.items ++ canon.shown_byte byte) }
{
    if is_plain(byte) {
        text.push(byte)?;
        return Ok(());
    }
    text.push(b'\\')?;
    text.push(b'x')?;
    text.push(hex_digit(byte / 16))?;
    text.push(hex_digit(byte % 16))?;
    Ok(())
}

/// The lower-case hexadecimal digit of a number below 16.
fn hex_digit(value: u8) -> u8
    requires { value < 16 }
    ensures { result ≡ spelling.hex_digit value }
{
    if value < 10 {
        b'0' + value
    } else {
        b'a' - 10 + value
    }
}
