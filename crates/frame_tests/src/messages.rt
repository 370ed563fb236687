ghost use Rattle.std.specs.Prelude.{◌≤◌, length};

use std::alloc::Global;
use std::process::Abort;
use std::test::Fail;
use wire::{
    Answer, Item, Request, WireFault, decode_answer, decode_request, encode_answer, encode_request,
    share_answer, share_request,
};

mod answers;
mod faults;
mod requests;

fn digit(letter: u8) -> u8
    ensures { result ≤ 15 }
{
    match letter {
        b'0'..=b'9' => letter - b'0',
        b'a'..=b'f' => letter - b'a' + 10,
        _ => 0,
    }
}

/// Adds the bytes of hexadecimal digits.
fn push_digits(bytes: &mut Vec<u8>, digits: &str) -> Result<(), Fail> {
    for pair in digits.as_bytes().chunks(2) {
        match pair {
            [high, low] => bytes.push(digit(*high) * 16 + digit(*low))?,
            _ => return Err(Fail::new("half a byte")),
        }
    }
    Ok(())
}

/// The bytes of words of hexadecimal digits. Behind `*` stands how often a word is repeated.
fn bytes_of(alloc: Global, words: &str) -> Result<Vec<u8>, Fail> {
    let mut bytes = Vec::new(alloc);
    for word in words.split(' ') {
        match word.split_once('*') {
            None => push_digits(&mut bytes, word)?,
            Some((digits, times)) => {
                for _ in 0..times.parse::<u16>()? {
                    push_digits(&mut bytes, digits)?;
                }
            }
        }
    }
    Ok(bytes)
}

/// The two parts of a case.
fn parts(case: &str) -> Result<(&str, &str), Fail> {
    match case.split_once(" => ") {
        Some(parts) => Ok(parts),
        None => Err(Fail::new("no case")),
    }
}

/// The frame is the body's length and the body.
fn is_frame(rt: &impl Abort, frame: &[u8], body: &[u8])
    requires { length body.now ≤ 20000 }
{
    assert_eq!(rt; frame.len(), body.len() + 4);
    let (front, rest) = frame.split_at(4);
    assert_eq!(rt; front, (body.len() as u32).to_be_bytes().as_slice());
    assert_eq!(rt; rest, body);
}

/// The body spells a request: it is decoded, shared and encoded.
fn spells_request(rt: &impl Abort, alloc: Global, body: &[u8]) -> Result<Request, Fail> {
    assert!(rt; body.len() <= 20_000);
    let message = decode_request(alloc, body)?;
    let shared = share_request(alloc, &message)?;
    let frame = encode_request(alloc, &shared)?;
    is_frame(rt, frame.bytes(), body);
    Ok(message)
}

/// The body spells an answer: it is decoded, shared and encoded.
fn spells_answer(rt: &impl Abort, alloc: Global, body: &[u8]) -> Result<Answer, Fail> {
    assert!(rt; body.len() <= 20_000);
    let message = decode_answer(alloc, body)?;
    let shared = share_answer(alloc, &message)?;
    let frame = encode_answer(alloc, &shared)?;
    is_frame(rt, frame.bytes(), body);
    Ok(message)
}

/// What spells a request is bad at its end where it is cut, and where it has one byte more.
fn bad_request_if_cut(rt: &impl Abort, alloc: Global, body: &[u8]) -> Result<(), Fail> {
    assert!(rt; body.len() <= 20_000);
    for at in 0..body.len() {
        bad_request(rt, alloc, &body[..at], at as u32);
    }
    let mut more = Vec::from_slice(alloc, body)?;
    more.push(0)?;
    bad_request(rt, alloc, more.as_slice(), body.len() as u32);
    Ok(())
}

fn bad_request(rt: &impl Abort, alloc: Global, body: &[u8], at: u32) {
    assert_eq!(rt;
        decode_request(alloc, body).err(),
        Some(WireFault::Bad { at }),
        "{body:?}"
    );
}

/// What spells an answer is bad at its end where it is cut, and where it has one byte more.
fn bad_answer_if_cut(rt: &impl Abort, alloc: Global, body: &[u8]) -> Result<(), Fail> {
    assert!(rt; body.len() <= 20_000);
    for at in 0..body.len() {
        bad_answer(rt, alloc, &body[..at], at as u32);
    }
    let mut more = Vec::from_slice(alloc, body)?;
    more.push(0)?;
    bad_answer(rt, alloc, more.as_slice(), body.len() as u32);
    Ok(())
}

fn bad_answer(rt: &impl Abort, alloc: Global, body: &[u8], at: u32) {
    assert_eq!(rt;
        decode_answer(alloc, body).err(),
        Some(WireFault::Bad { at }),
        "{body:?}"
    );
}
