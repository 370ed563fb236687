//! One call that is handed back, and how it ends. What is said is written out by hand from docs/PROTOCOL.md.

use crate::bench::{Bench, goes_through};
use crate::books::{Ended, TABLE, TENANT, end_of, pair};
use book::Read;
use journal::Home;
use sp_base::Key;
use std::test::Fail;

/// The call is handed back with its one read, `a`. A write of table 9 is foreign, and the call stays parked. The record `b` is
/// fetched, and the call ends.
const FETCHED: &str = "\
0000000d 01 00000001 0000000000000007 => 0000000f 41 01 00000006 02 0000000000000001
0000001a 03 0001 00000001 0000000000000001 00000000 00000064 01 0000 => \
00000025 43 0001 03 00000001 00000013 0001 00000006 01 61 0000000000000000 0000000000000001 00
00000023 05 00000001 0000000000000001 00 0000000000000000 0000 01 00000009 01 7a 01 0001 76 => 00000006 45 0a 00000009
00000013 04 00000001 0000000000000001 00000006 01 62 => 00000013 44 00 0000000000000000 0000000000000001 00
00000019 05 00000001 0000000000000001 00 0000000000000000 0000 00 => 00000015 45 00 0000000000000001 00 0000000000000000 0000";

/// The call that is handed back ends with a write of `z`.
const WRITTEN: &str = "\
0000000d 01 00000001 0000000000000007 => 0000000f 41 01 00000006 02 0000000000000001
0000001a 03 0001 00000001 0000000000000001 00000000 00000064 01 0000 => \
00000025 43 0001 03 00000001 00000013 0001 00000006 01 61 0000000000000000 0000000000000001 00
00000023 05 00000001 0000000000000001 00 0000000000000000 0000 01 00000006 01 7a 01 0001 76 => \
00000015 45 00 0000000000000001 00 0000000000000000 0000";

/// The same call where one live call is no load.
const KEPT: &str = "\
0000000d 01 00000001 0000000000000007 => 0000000f 41 01 00000006 02 0000000000000001
0000001a 03 0001 00000001 0000000000000001 00000000 00000064 01 0000 => \
00000017 43 0001 00 0000000000000001 00 0000000000000000 0000";

/// A call that does not allow it is not handed back.
const STAYING: &str = "\
0000000d 01 00000001 0000000000000007 => 0000000f 41 01 00000006 02 0000000000000001
0000001a 03 0001 00000001 0000000000000001 00000000 00000064 00 0000 => \
00000017 43 0001 00 0000000000000001 00 0000000000000000 0000";

#[test]
fn a_call_ends_at_its_client(rt: HostRuntime) -> Result<(), Fail> {
    let alloc = rt.alloc();
    let mut bench = Bench::over(alloc, pair(alloc)?, 1)?;
    goes_through(&rt, alloc, &mut bench, FETCHED)?;
    let expected = Ended {
        home: Home::Client,
        reads: 2,
        writes: 0,
    };
    assert_eq!(rt; end_of(&bench.book, 1)?, expected);
    assert_eq!(rt; bench.book.len(), 2);
    Ok(())
}

#[test]
fn a_call_writes_at_its_client(rt: HostRuntime) -> Result<(), Fail> {
    let alloc = rt.alloc();
    let mut bench = Bench::over(alloc, pair(alloc)?, 1)?;
    goes_through(&rt, alloc, &mut bench, WRITTEN)?;
    let expected = Ended {
        home: Home::Client,
        reads: 1,
        writes: 1,
    };
    assert_eq!(rt; end_of(&bench.book, 1)?, expected);
    let Read::Found(found) = bench.book.read(TENANT, TABLE, &Key::of(alloc, b"z")?) else {
        return Err(Fail::new("no record"));
    };
    assert_eq!(rt; found.version, 2);
    Ok(())
}

#[test]
fn a_call_is_kept_below_the_load(rt: HostRuntime) -> Result<(), Fail> {
    let alloc = rt.alloc();
    let mut bench = Bench::over(alloc, pair(alloc)?, 2)?;
    goes_through(&rt, alloc, &mut bench, KEPT)?;
    let expected = Ended {
        home: Home::Server,
        reads: 2,
        writes: 0,
    };
    assert_eq!(rt; end_of(&bench.book, 1)?, expected);
    Ok(())
}

#[test]
fn a_call_that_does_not_allow_it_stays(rt: HostRuntime) -> Result<(), Fail> {
    let alloc = rt.alloc();
    let mut bench = Bench::over(alloc, pair(alloc)?, 1)?;
    goes_through(&rt, alloc, &mut bench, STAYING)
}
