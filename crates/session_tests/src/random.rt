//! A thousand frames whose bodies are cut short, or have one byte changed.

ghost use Rattle.std.specs.Prelude.{◌≡◌, ◌<◌, IfOk, false, length};
ghost use Rattle.drive.specs.Hearing.{MayBeDriven};

use crate::bench::Bench;
use crate::meant::{Had, shown};
use crate::stores::counters;
use crate::words::bytes_of;
use book::Book;
use drive::Driven;
use sp_base::TenantId;
use std::alloc::Global;
use std::process::Abort;
use std::test::Fail;
use wire::{Request, WireFault, decode_answer, decode_request};

/// A body of each kind of request.
const BODIES: &str = "\
01 00000001 0000000000000007
02 0020 'fn main() -> int {' 0a 'return 0; ' 0a '}' 0a
03 0002 00000001 0000000000000001 00000000 00000064 00 0001 6b 00000002 0000000000000001 00000000 00000064 01 0001 6c
04 00000001 0000000000000001 00000006 01 6b
05 00000001 0000000000000001 00 0000000000000000 0000 01 00000006 01 6b 01 0001 76
06 00000005 01 6b 0002 7631
07 00000000
08";

/// The next number of the generator behind one.
fn next(seed: u64) -> u64 {
    seed.wrapping_mul(6_364_136_223_846_793_005)
        .wrapping_add(1_442_695_040_888_963_407)
}

/// A number below a bound, from the upper bits of one.
fn below(seed: u64, bound: usize) -> usize
    requires { 0 < bound }
    ensures { result < bound }
{
    (seed >> 33) as usize % bound
}

/// The body cut short, or with one byte changed.
fn spoiled(alloc: Global, body: &[u8], seed: u64) -> Result<Vec<u8>, Fail> {
    let mut bytes = Vec::from_slice(alloc, body)?;
    if body.is_empty() {
        return Ok(bytes);
    }
    let at = below(seed, body.len());
    if seed % 3 == 0 {
        bytes.truncate(at);
    } else if at < bytes.len() {
        bytes[at] = (next(seed) >> 56) as u8;
    }
    Ok(bytes)
}

/// The frame of a body.
fn framed(alloc: Global, body: &[u8]) -> Result<Vec<u8>, Fail> {
    let length = u32::try_from(body.len())?;
    let mut frame = Vec::from_slice(alloc, &length.to_be_bytes())?;
    frame.extend_from_slice(body)?;
    Ok(frame)
}

/// The body of the one frame that these bytes are; none where they are no bytes.
fn body_said(said: &[u8]) -> Result<Option<&[u8]>, Fail> {
    match said {
        [] => Ok(None),
        [first, second, third, fourth, body @ ..] => {
            if u32::from_be_bytes([*first, *second, *third, *fourth]) as usize == body.len() {
                Ok(Some(body))
            } else {
                Err(Fail::new("no frame"))
            }
        }
        _ => Err(Fail::new("half a length")),
    }
}

/// A session of tenant 1 that has said Hello.
fn greeted(alloc: Global, book: Book) -> Result<Bench, Fail>
    requires { book.audit ≡ false }
    ensures ready { IfOk result (λ bench. MayBeDriven bench.session bench.book) }
    ensures audit { IfOk result (λ bench. bench.book.audit ≡ false) }
{
    let mut bench = Bench::over(alloc, book)?;
    let hello = bytes_of(alloc, "0000000d 01 00000001 0000000000000007")?;
    let welcome = bench.hears(alloc, hello.as_slice())?;
    if welcome.stopped {
        return Err(Fail::new("no welcome"));
    }
    Ok(bench)
}

/// How many entries are shown in what was said to a request, which is what it means.
fn shown_to(alloc: Global, request: &Request, driven: &Driven, had: Had) -> Result<u64, Fail> {
    match (request, body_said(driven.said.bytes())?) {
        (Request::Bye, None) => Ok(0),
        (_, Some(body)) => {
            let answer = decode_answer(alloc, body)?;
            Ok(shown(request, &answer, had).ok_or("another answer")?)
        }
        _ => Err(Fail::new("no answer")),
    }
}

/// How many entries are shown in what was said to a body.
fn shown_in(alloc: Global, body: &[u8], driven: &Driven, had: Had) -> Result<u64, Fail> {
    match decode_request(alloc, body) {
        Ok(request) => shown_to(alloc, &request, driven, had),
        Err(WireFault::Bad { .. }) => {
            if driven.stopped && body_said(driven.said.bytes())? == Some(&[72, 1]) {
                Ok(0)
            } else {
                Err(Fail::new("no fault"))
            }
        }
        Err(WireFault::Memory) => Err(Fail::new("out of memory")),
    }
}

/// The frame of this body is answered as it should be, and the book has the entries that are shown.
fn is_answered(rt: &impl Abort, alloc: Global, book: Book, body: &[u8]) -> Result<Book, Fail>
    requires { book.audit ≡ false }
    ensures { IfOk result (λ book. book.audit ≡ false) }
{
    let mut bench = greeted(alloc, book)?;
    let had = Had {
        entries: bench.book.len(),
        exts: bench.book.ext_count(TenantId(1)),
    };
    let frame = framed(alloc, body)?;
    let driven = bench.hears(alloc, frame.as_slice())?;
    let more = shown_in(alloc, body, &driven, had)?;
    assert_eq!(rt;
        bench.book.len(),
        had.entries.wrapping_add(more),
        "{body:?}"
    );
    let Bench { book, .. } = bench;
    Ok(book)
}

#[test]
fn spoiled_frames_are_answered(rt: HostRuntime) -> Result<(), Fail> {
    let alloc = rt.alloc();
    let mut book = counters(alloc, 10_000)?;
    let mut seed = 1;
    'rounds: for _ in 0..125 {
        'bodies: for line in BODIES.lines() {
            let body = bytes_of(alloc, line)?;
            seed = next(seed);
            let frame = spoiled(alloc, body.as_slice(), seed)?;
            book = is_answered(&rt, alloc, book, frame.as_slice())?;
        }
    }
    Ok(())
}
