//! The fields of a line, and the values that they spell.

ghost use Rattle.std.specs.Prelude.{◌≡◌, ◌≢◌, ◌≤◌, ◌<◌, ℕ, IfOk, IfSome, length, map, Some, None, option_map, nat_le, option_and_then, if◌then◌else◌};
ghost use Rattle.sp_base.specs.Limits.{IsKey};
ghost use Rattle.sched_text.specs.Fits.{IsWithin};
ghost use Rattle.sched_text.specs.Results.{Gives};
ghost use Rattle.sched_text.specs.Reading.{digits_within};
ghost use Rattle.sched_text.specs.Fields.{cut, fields_of, field, digit_value, letter_value, hex_value, byte_of, number_of, pairs_of, bytes_of, number_field, bytes_field, level_field, push_field, at_most, next_digit};

use crate::code::LineCode;
use crate::line::LineFault;
use sp_base::{Blob, Key, KeyFault, Level, MOST_KEY, Memory, same_bytes};
use std::alloc::Global;

/// What stands before the first such byte, and what follows it, if there is one.
pub fn cut(text: &[u8], mark: u8) -> (&[u8], Option<&[u8]>)
    ensures { cut mark text.now ≡ (result.0.now, option_map (λ rest. rest.now) result.1) }
{
    for (at, byte) in text.iter().enumerate() {
        if *byte == mark {
            return (&text[..at], Some(&text[at + 1..]));
        }
    }
    (text, None)
}

/// The fields of a line, at most ten of them.
#[tactic(auto, unfolding(crate::specs::Fields::fields_of))]
pub fn fields(alloc: Global, line: &[u8]) -> Result<Vec<&[u8]>, Memory>
    ensures { IfOk result (λ fields. map (λ x. x.now) fields.items ≡ fields_of line.now) }
{
    let mut fields = Vec::new(alloc);
    let mut rest = line;
    for _ in 0..10usize {
        let (field, after) = cut(rest, b' ');
        fields.push(field)?;
        match after {
            Some(after) => rest = after,
            None => return Ok(fields),
        }
    }
    Ok(fields)
}

/// A field by its number: an empty one where there is none.
pub fn field<'a>(fields: &[&'a [u8]], at: usize) -> &'a [u8]
    ensures { result.now ≡ field (map (λ x. x.now) fields.now) at }
{
    match fields.get(at) {
        Some(field) => field,
        None => &[],
    }
}

/// The value of a decimal digit.
#[tactic(auto, unfolding(crate::specs::Fields::digit_value))]
fn digit(byte: u8) -> Option<u8>
    ensures value { result ≡ digit_value byte }
    ensures small { IfSome result (λ digit. digit < 10) }
{
    match byte {
        b'0'..=b'9' => Some(byte - b'0'),
        _ => None,
    }
}

/// The number with one more digit, if it is at most `most`.
#[tactic(auto, unfolding(crate::specs::Fields::next_digit))]
fn extended(value: u64, byte: u8, most: u64) -> Option<u64>
    ensures value { result ≡ next_digit most value byte }
    ensures within { IfSome result (λ more. more ≤ most) }
{
    let digit = digit(byte)?;
    let value = value.checked_mul(10)?.checked_add(u64::from(digit))?;
    if value <= most { Some(value) } else { None }
}

/// The number that digits spell, if it is at most `most`.
fn digits(text: &[u8], most: u64) -> Option<u64>
    ensures value { result ≡ digits_within most 0 text.now }
    ensures within { IfSome result (λ number. number ≤ most) }
{
    let mut value = 0;
    let mut rest = text;
    while let [byte, more @ ..] = rest {
        match extended(value, *byte, most) {
            Some(longer) => value = longer,
            None => return None,
        }
        rest = more;
    }
    Some(value)
}

/// The number that a text spells, if it is at most `most`: decimal digits, with no sign and no zero in front.
#[tactic(auto, using(crate::proofs::Digits::within_is))]
pub fn spelled_number(text: &[u8], most: u64) -> Option<u64>
    ensures value { result ≡ at_most most (number_of text.now) }
    ensures within { IfSome result (λ number. number ≤ most) }
{
    match text {
        [] | [b'0', _, ..] => None,
        _ => digits(text, most),
    }
}

/// A number of this range.
#[tactic(auto, unfolding(crate::specs::Fields::number_field))]
pub fn number(text: &[u8], least: u64, most: u64) -> Result<u64, LineFault>
    ensures value { Gives (λ n. n) result (number_field least most text.now) }
    ensures within { IfOk result (IsWithin least most) }
{
    match spelled_number(text, most) {
        Some(number) if number >= least => Ok(number),
        _ => Err(LineFault::Code(LineCode::Field)),
    }
}

/// A number of 32 bits, of this range.
pub fn small(text: &[u8], least: u32, most: u32) -> Result<u32, LineFault>
    ensures value { Gives (λ n. n) result (number_field least most text.now) }
    ensures within { IfOk result (IsWithin least most) }
{
    let number = number(text, u64::from(least), u64::from(most))?;
    Ok(number as u32)
}

/// The value of a lower-case hexadecimal digit.
#[tactic(auto, unfolding(crate::specs::Fields::hex_value))]
fn hex(byte: u8) -> Option<u8>
    ensures value { result ≡ hex_value byte }
    ensures small { IfSome result (λ digit. digit < 16) }
{
    match digit(byte) {
        Some(digit) => Some(digit),
        None => letter(byte),
    }
}

/// The value of a hexadecimal digit that is a letter.
fn letter(byte: u8) -> Option<u8>
    ensures small { IfSome result (λ digit. digit < 16) }
    ensures value { result ≡ letter_value byte }
{
    match byte {
        b'a'..=b'f' => Some(byte - b'a' + 10),
        _ => None,
    }
}

/// The byte that two digits spell.
#[tactic(auto, unfolding(crate::specs::Fields::byte_of))]
fn byte(high: u8, low: u8) -> Option<u8>
    ensures { result ≡ byte_of high low }
{
    let high = hex(high)?;
    let low = hex(low)?;
    Some(16 * high + low)
}

/// The bytes that digits spell, two digits each.
#[tactic(auto, using(crate::proofs::Pairs::pair_read, crate::proofs::Pairs::pair_bad))]
fn pairs(alloc: Global, text: &[u8]) -> Result<Option<Vec<u8>>, Memory>
    ensures { IfOk result (λ read. option_map (λ v. v.items) read ≡ pairs_of text.now) }
{
    let mut bytes = Vec::new(alloc);
    let mut rest = text;
    while let [high, low, more @ ..] = rest {
        let Some(byte) = byte(*high, *low) else {
            return Ok(None);
        };
        bytes.push(byte)?;
        rest = more;
    }
    if rest.is_empty() {
        Ok(Some(bytes))
    } else {
        Ok(None)
    }
}

/// The bytes that a field spells.
fn bytes(alloc: Global, text: &[u8]) -> Result<Option<Vec<u8>>, Memory>
    ensures { IfOk result (λ read. option_map (λ v. v.items) read ≡ bytes_of text.now) }
{
    match text {
        [b'x', digits @ ..] => pairs(alloc, digits),
        _ => Ok(None),
    }
}

/// So many bytes.
#[tactic(auto, unfolding(crate::specs::Fields::bytes_field))]
pub fn blob(alloc: Global, text: &[u8], least: usize, most: usize) -> Result<Blob, LineFault>
    ensures value { Gives (λ blob. blob) result (bytes_field least most text.now) }
    ensures some { IfOk result (λ blob. least ≤ length blob) }
    ensures few { IfOk result (λ blob. length blob ≤ most) }
{
    let Some(bytes) = bytes(alloc, text)? else {
        return Err(LineFault::Code(LineCode::Field));
    };
    if bytes.len() < least || bytes.len() > most {
        return Err(LineFault::Code(LineCode::Field));
    }
    Ok(Blob::from_vec(bytes))
}

/// A key.
pub fn key(alloc: Global, text: &[u8]) -> Result<Key, LineFault>
    ensures value { Gives (λ key. key) result (bytes_field 1 64 text.now) }
    ensures size { IfOk result IsKey }
{
    let blob = blob(alloc, text, 1, MOST_KEY)?;
    match Key::of(alloc, blob.bytes()) {
        Ok(key) => Ok(key),
        Err(KeyFault::Size) => unreachable!(),
        Err(KeyFault::Memory) => Err(LineFault::Memory),
    }
}

/// `read` or `write`.
#[tactic(auto, unfolding(crate::specs::Fields::level_field))]
pub fn level(text: &[u8]) -> Result<Level, LineFault>
    ensures value { Gives (λ level. level) result (level_field text.now) }
    ensures some { IfOk result (λ level. level ≢ Level.Nothing) }
{
    if same_bytes(text, b"read") {
        Ok(Level::Read)
    } else if same_bytes(text, b"write") {
        Ok(Level::Write)
    } else {
        Err(LineFault::Code(LineCode::Field))
    }
}

/// Whether the field is `push`, where it may also be `stay`.
#[tactic(auto, unfolding(crate::specs::Fields::push_field))]
pub fn push_ok(text: &[u8]) -> Result<bool, LineFault>
    ensures { Gives (λ push. push) result (push_field text.now) }
{
    if same_bytes(text, b"push") {
        Ok(true)
    } else if same_bytes(text, b"stay") {
        Ok(false)
    } else {
        Err(LineFault::Code(LineCode::Field))
    }
}
