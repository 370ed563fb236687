//! The ends that the client of a parked call sends. What is said is written out by hand from docs/PROTOCOL.md.

ghost use Rattle.std.specs.Prelude.{IfOk};
ghost use Rattle.drive.specs.Hearing.{MayBeDriven};

use crate::bench::{Bench, goes_through};
use crate::books::{Ended, end_of, pair_within};
use journal::Home;
use std::alloc::Global;
use std::process::Abort;
use std::test::Fail;

/// Call 1 of caller 1 is parked with its read of `a`.
const PARKED: &str = "\
0000000d 01 00000001 0000000000000007 => 00000014 41 02 00000005 01 00000006 02 0000000000000001
0000001a 03 0001 00000001 0000000000000001 00000000 00000064 01 0000 => \
00000025 43 0001 03 00000001 00000013 0001 00000006 01 61 0000000000000000 0000000000000001 00";

/// Ends of a call that is not parked; two writes of one place; a write beside a trap, and beside a budget that did not suffice;
/// a write in a table that may only be read, and in one without rights. The caller is busy behind each. Then the call ends, and
/// ends no second time.
const REFUSED: &str = "\
00000019 05 00000002 0000000000000001 00 0000000000000000 0000 00 => 00000002 45 0d
00000019 05 00000001 0000000000000002 00 0000000000000000 0000 00 => 00000002 45 0d
0000001a 03 0001 00000001 0000000000000009 00000000 00000064 00 0000 => 0000000c 43 0001 05 0000000000000001
00000027 05 00000001 0000000000000001 00 0000000000000000 0000 02 00000006 01 7a 00 00000006 01 7a 00 => 00000003 45 0b 02
0000001a 03 0001 00000001 0000000000000009 00000000 00000064 00 0000 => 0000000c 43 0001 05 0000000000000001
00000017 05 00000001 0000000000000001 01 01 01 00000006 01 7a 00 => 00000003 45 0b 03
0000001a 03 0001 00000001 0000000000000009 00000000 00000064 00 0000 => 0000000c 43 0001 05 0000000000000001
00000016 05 00000001 0000000000000001 02 01 00000006 01 7a 00 => 00000003 45 0b 03
0000001a 03 0001 00000001 0000000000000009 00000000 00000064 00 0000 => 0000000c 43 0001 05 0000000000000001
00000020 05 00000001 0000000000000001 00 0000000000000000 0000 01 00000005 01 7a 00 => 00000006 45 0a 00000005
0000001a 03 0001 00000001 0000000000000009 00000000 00000064 00 0000 => 0000000c 43 0001 05 0000000000000001
00000020 05 00000001 0000000000000001 00 0000000000000000 0000 01 00000009 01 7a 00 => 00000006 45 0a 00000009
00000019 05 00000001 0000000000000001 00 0000000000000000 0000 00 => 00000015 45 00 0000000000000001 00 0000000000000000 0000
00000019 05 00000001 0000000000000001 00 0000000000000000 0000 00 => 00000002 45 0d
0000001a 03 0001 00000001 0000000000000001 00000000 00000064 00 0000 => 00000014 43 0001 01 0000000000000001 0000000000000002";

/// The end finds a full journal, and the call is no longer parked.
const FULL: &str = "\
00000019 05 00000001 0000000000000001 00 0000000000000000 0000 00 => 0000000a 45 04 0000000000000001
00000019 05 00000001 0000000000000001 00 0000000000000000 0000 00 => 00000002 45 0d";

/// A session whose call 1 of caller 1 is parked.
fn parked(rt: &impl Abort, alloc: Global, limit: u64) -> Result<Bench, Fail>
    ensures { IfOk result (λ bench. MayBeDriven bench.session bench.book) }
{
    if limit > 100 {
        return Err(Fail::new("a limit of more than a hundred"));
    }
    let mut bench = Bench::over(alloc, pair_within(alloc, limit)?, 1)?;
    goes_through(rt, alloc, &mut bench, PARKED)?;
    Ok(bench)
}

#[test]
fn an_end_that_is_refused_leaves_the_call_parked(rt: HostRuntime) -> Result<(), Fail> {
    let alloc = rt.alloc();
    let mut bench = parked(&rt, alloc, 100)?;
    goes_through(&rt, alloc, &mut bench, REFUSED)?;
    assert_eq!(rt; (bench.book.len(), bench.session.room()), (2, 64));
    Ok(())
}

#[test]
fn an_end_that_finds_no_room_is_the_last(rt: HostRuntime) -> Result<(), Fail> {
    let alloc = rt.alloc();
    let mut bench = parked(&rt, alloc, 1)?;
    goes_through(&rt, alloc, &mut bench, FULL)?;
    assert_eq!(rt; (bench.book.len(), bench.session.room()), (1, 64));
    Ok(())
}

/// The frame of an end with so many writes, each of its own place.
fn end_with(alloc: Global, count: u8) -> Result<Vec<u8>, Fail> {
    let length = 25 + 7 * u32::from(count);
    let mut frame = Vec::from_slice(alloc, &length.to_be_bytes())?;
    frame.extend_from_slice(&[5, 0, 0, 0, 1, 0, 0, 0, 0, 0, 0, 0, 1])?;
    frame.extend_from_slice(&[0, 0, 0, 0, 0, 0, 0, 0, 0, 0, 0, count])?;
    for key in 0..count {
        frame.extend_from_slice(&[0, 0, 0, 6, 1, key, 0])?;
    }
    Ok(frame)
}

/// Sixty-five writes are of no allowed shape; sixty-four are taken.
#[test]
fn at_most_sixty_four_writes_are_taken(rt: HostRuntime) -> Result<(), Fail> {
    let alloc = rt.alloc();
    let mut bench = parked(&rt, alloc, 100)?;
    let more = end_with(alloc, 65)?;
    let refused = bench.hears(alloc, 1000, more.as_slice())?;
    assert_eq!(rt; refused.bytes(), [0, 0, 0, 3, 69, 11, 1].as_slice());
    let most = end_with(alloc, 64)?;
    let _ = bench.hears(alloc, 1000, most.as_slice())?;
    let expected = Ended {
        home: Home::Client,
        reads: 1,
        writes: 64,
    };
    assert_eq!(rt; end_of(&bench.book, 1)?, expected);
    Ok(())
}
