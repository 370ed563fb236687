//! A short notation for texts and cases of tables.

use std::alloc::{AllocError, Global};
use std::test::Fail;

/// Adds the bytes of a notation: `~` is a newline, `$` a tab, and `^` and `?` are the first two
/// bytes above the visible ones.
fn push_bytes(text: &mut Vec<u8>, notation: &str) -> Result<(), AllocError> {
    for byte in notation.as_bytes() {
        text.push(match *byte {
            b'~' => b'\n',
            b'$' => b'\t',
            b'^' => 0x7f,
            b'?' => 0x80,
            byte => byte,
        })?;
    }
    Ok(())
}

/// The text of a notation, in which `[PART@COUNT]` is a part so many times.
pub fn text_of(alloc: Global, notation: &str) -> Result<Vec<u8>, Fail> {
    let mut text = Vec::new(alloc);
    for piece in notation.split('[') {
        let Some((repeated, rest)) = piece.split_once(']') else {
            push_bytes(&mut text, piece)?;
            continue;
        };
        let Some((part, count)) = repeated.split_once('@') else {
            return Err(Fail::new("no count"));
        };
        for _turn in 0..count.parse::<usize>()? {
            push_bytes(&mut text, part)?;
        }
        push_bytes(&mut text, rest)?;
    }
    Ok(text)
}

/// The two parts of a case.
pub fn parts(case: &str) -> Result<(&str, &str), Fail> {
    match case.rsplit_once(" => ") {
        Some(parts) => Ok(parts),
        None => Err(Fail::new("no case")),
    }
}
