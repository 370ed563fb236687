//! Bytes that are written as words of hexadecimal digits.

ghost use Rattle.std.specs.Prelude.{◌≤◌};

use std::alloc::Global;
use std::test::Fail;

fn digit(letter: u8) -> u8
    ensures { result ≤ 15 }
{
    match letter {
        b'0'..=b'9' => letter - b'0',
        b'a'..=b'f' => letter - b'a' + 10,
        _ => 0,
    }
}

/// Adds the bytes of hexadecimal digits.
fn push_digits(bytes: &mut Vec<u8>, digits: &str) -> Result<(), Fail> {
    for pair in digits.as_bytes().chunks(2) {
        match pair {
            [high, low] => bytes.push(digit(*high) * 16 + digit(*low))?,
            _ => return Err(Fail::new("half a byte")),
        }
    }
    Ok(())
}

/// The bytes of words of hexadecimal digits.
pub fn bytes_of(alloc: Global, words: &str) -> Result<Vec<u8>, Fail> {
    let mut bytes = Vec::new(alloc);
    for word in words.split(' ') {
        push_digits(&mut bytes, word)?;
    }
    Ok(bytes)
}

/// What is heard and what is said then.
pub fn parts(exchange: &str) -> Result<(&str, &str), Fail> {
    match exchange.split_once(" => ") {
        Some(parts) => Ok(parts),
        None => Err(Fail::new("no exchange")),
    }
}
