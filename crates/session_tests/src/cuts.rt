//! What is said does not depend on where the bytes are cut.

ghost use Rattle.std.specs.Prelude.{◌≤◌, length};

use crate::bench::Bench;
use crate::stores::look_ups;
use crate::words::{bytes_of, parts};
use std::alloc::Global;
use std::process::Abort;
use std::test::Fail;

/// Bytes that are heard, and what is said to them: a frame, also with a length behind it that waits for its bytes; a length
/// that is too long; a Hello with a byte too many; the worked exchange.
const HEARD: &str = "\
0000000d 01 00000001 0000000000000007 => 0000000f 41 01 00000005 02 0000000000000002
0000000d 01 00000001 0000000000000007 00800000 => 0000000f 41 01 00000005 02 0000000000000002
00800001 => 00000002 48 02
0000000e 01 00000001 0000000000000007 00 => 00000002 48 01
0000000d 01 00000001 0000000000000007 0000001b 03 0001 00000001 0000000000000001 00000000 00000064 00 0001 6b 00000001 08 => \
0000000f 41 01 00000005 02 0000000000000002 00000019 43 0001 00 0000000000000002 00 0000000000000000 0002 7631";

/// What is said to bytes that are fed in two pieces.
fn said_to(alloc: Global, front: &[u8], back: &[u8]) -> Result<Vec<u8>, Fail> {
    let mut bench = Bench::over(alloc, look_ups(alloc)?)?;
    let first = bench.hears(alloc, front)?;
    let mut said = Vec::from_slice(alloc, first.said.bytes())?;
    if !first.stopped {
        let second = bench.hears(alloc, back)?;
        said.extend_from_slice(second.said.bytes())?;
    }
    Ok(said)
}

/// The bytes are answered so, cut at this place.
fn is_said(rt: &impl Abort, alloc: Global, bytes: &[u8], at: usize, said: &[u8]) -> Result<(), Fail>
    requires { at ≤ length bytes.now }
{
    let (front, back) = bytes.split_at(at);
    let given = said_to(alloc, front, back)?;
    assert_eq!(rt; given.as_slice(), said, "cut at {at}");
    Ok(())
}

#[test]
fn cut_at_each_byte(rt: HostRuntime) -> Result<(), Fail> {
    let alloc = rt.alloc();
    for line in HEARD.lines() {
        let (heard, said) = parts(line)?;
        let bytes = bytes_of(alloc, heard)?;
        let expected = bytes_of(alloc, said)?;
        for at in 0..bytes.len() {
            is_said(&rt, alloc, bytes.as_slice(), at, expected.as_slice())?;
        }
    }
    Ok(())
}
