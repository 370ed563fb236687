//! A session parks no more than 64 calls.

ghost use Rattle.std.specs.Prelude.{IfOk, ◌≤◌, ◌≡◌};
ghost use Rattle.drive.specs.Hearing.{MayBeDriven};

use crate::bench::{Bench, goes_through};
use crate::books::pair;
use std::alloc::Global;
use std::process::Abort;
use std::test::Fail;

const HELLO: &str =
    "0000000d 01 00000001 0000000000000007 => 0000000f 41 01 00000006 02 0000000000000001";

/// Callers 65 and 66 find no room, whether alone or in a batch. When call 1 of caller 9 has ended there is room for one call, the first
/// of the next batch.
const BEHIND: &str = "\
0000001a 03 0001 00000041 0000000000000001 00000000 00000064 01 0000 => \
00000017 43 0001 00 0000000000000001 00 0000000000000000 0000
00000019 05 00000009 0000000000000001 00 0000000000000000 0000 00 => 00000015 45 00 0000000000000002 00 0000000000000000 0000
00000031 03 0002 00000041 0000000000000002 00000000 00000064 01 0000 00000042 0000000000000001 00000000 00000064 01 0000 => \
00000039 43 0002 03 00000002 00000013 0001 00000006 01 61 0000000000000000 0000000000000003 00 \
00 0000000000000003 00 0000000000000000 0000
0000001a 03 0001 00000009 0000000000000002 00000000 00000064 01 0000 => \
00000017 43 0001 00 0000000000000004 00 0000000000000000 0000
0000001a 03 0001 00000041 0000000000000003 00000000 00000064 01 0000 => 0000000c 43 0001 05 0000000000000002";

/// The frame of a batch of 64 calls, by the callers 1 to 64.
fn asked(alloc: Global) -> Result<Vec<u8>, Fail> {
    let length: u32 = 3 + 64 * 23;
    let mut frame = Vec::from_slice(alloc, &length.to_be_bytes())?;
    frame.extend_from_slice(&[3, 0, 64])?;
    for caller in 0..64_u8 {
        frame.extend_from_slice(&[0, 0, 0, caller + 1])?;
        frame.extend_from_slice(&[0, 0, 0, 0, 0, 0, 0, 1])?;
        frame.extend_from_slice(&[0, 0, 0, 0, 0, 0, 0, 100, 1, 0, 0])?;
    }
    Ok(frame)
}

/// The frame of its answer: each call is handed back behind its first turn, when so many are live.
fn answered(alloc: Global) -> Result<Vec<u8>, Fail> {
    let length: u32 = 3 + 64 * 34;
    let mut frame = Vec::from_slice(alloc, &length.to_be_bytes())?;
    frame.extend_from_slice(&[67, 0, 64])?;
    for place in 0..64_u8 {
        frame.extend_from_slice(&[3, 0, 0, 0, 64 - place, 0, 0, 0, 19, 0, 1])?;
        frame.extend_from_slice(&[0, 0, 0, 6, 1, b'a', 0, 0, 0, 0, 0, 0, 0, 0])?;
        frame.extend_from_slice(&[0, 0, 0, 0, 0, 0, 0, 1, 0])?;
    }
    Ok(frame)
}

/// A session that has parked 64 calls.
fn full(rt: &impl Abort, alloc: Global) -> Result<Bench, Fail>
    ensures { IfOk result (λ bench. MayBeDriven bench.session bench.book) }
{
    let mut bench = Bench::over(alloc, pair(alloc)?, 1)?;
    goes_through(rt, alloc, &mut bench, HELLO)?;
    let heard = asked(alloc)?;
    let said = bench.hears(alloc, 1000, heard.as_slice())?;
    let expected = answered(alloc)?;
    assert_eq!(rt; said.bytes(), expected.as_slice());
    assert_eq!(rt; bench.session.room(), 0);
    Ok(bench)
}

#[test]
fn sixty_four_calls_are_parked_and_no_more(rt: HostRuntime) -> Result<(), Fail> {
    let alloc = rt.alloc();
    let mut bench = full(&rt, alloc)?;
    goes_through(&rt, alloc, &mut bench, BEHIND)?;
    assert_eq!(rt; (bench.book.len(), bench.session.room()), (5, 0));
    Ok(())
}
