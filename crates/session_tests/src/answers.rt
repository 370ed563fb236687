//! Exchanges of one session, each what is heard and what is said then. What is said is written out by hand from
//! docs/PROTOCOL.md, by what each request means. A line that ends with `end` ends the session.

use crate::bench::{Bench, ends_behind};
use crate::stores::{counters, look_ups};
use std::test::Fail;

/// The worked exchange.
const ORDINARY: &str = "\
0000000d 01 00000001 0000000000000007 => 0000000f 41 01 00000005 02 0000000000000002
0000001b 03 0001 00000001 0000000000000001 00000000 00000064 00 0001 6b => 00000019 43 0001 00 0000000000000002 00 0000000000000000 0002 7631
00000001 08 =>  end";

/// Caller 1 stands in the batch three times, the second time with no units; caller 4 has no units, 5 one too many, 6 as many
/// as it may have; caller 7 names an extension that is not there; the number of caller 8 is 0. Then caller 1 comes with its
/// last number, and with the next.
const REFUSED: &str = "\
0000000d 01 00000001 0000000000000007 => 0000000f 41 01 00000005 02 0000000000000002
000000c3 03 0008 00000001 0000000000000001 00000000 00000064 00 0001 78 \
00000001 0000000000000002 00000000 00000000 00 0001 78 \
00000004 0000000000000001 00000000 00000000 00 0001 78 \
00000005 0000000000000001 00000000 000186a1 00 0001 78 \
00000006 0000000000000001 00000000 000186a0 00 0001 78 \
00000007 0000000000000001 00000001 00000064 00 0001 78 \
00000008 0000000000000000 00000000 00000064 00 0001 78 \
00000001 0000000000000003 00000000 00000064 00 0001 78 => \
0000004d 43 0008 00 0000000000000002 00 0000000000000000 0000 06 08 08 00 0000000000000003 00 0000000000000000 0000 \
07 00000001 0000000000000002 01 0000000000000000 0000000000000004 06
0000001b 03 0001 00000001 0000000000000001 00000000 00000064 00 0001 6b => 00000014 43 0001 01 0000000000000001 0000000000000004
0000001b 03 0001 00000001 0000000000000002 00000000 00000064 00 0001 6b => 00000019 43 0001 00 0000000000000004 00 0000000000000000 0002 7631
00000001 08 =>  end";

/// A key of no bytes is a trap; one unit does not suffice; a record that is not there is no reply. Texts, and
/// records and the end of a call that is not parked.
const OTHERS: &str = "\
0000000d 01 00000001 0000000000000007 => 0000000f 41 01 00000005 02 0000000000000002
0000004a 03 0003 00000001 0000000000000001 00000000 00000064 00 0000 \
00000002 0000000000000001 00000000 00000001 00 0001 6b \
00000003 0000000000000001 00000000 00000064 00 0001 6c => \
0000002c 43 0003 00 0000000000000002 01 03 00 0000000000000003 02 00 0000000000000004 00 0000000000000000 0000
00000005 07 00000000 => 00000059 47 00 0055 'fn main() -> int { get(5, args()) { some s => { resp(s); } none => { } } return 0; }' 0a
00000005 07 00000001 => 0000000e 47 01 00000001 0000000000000005
00000013 04 00000001 0000000000000001 00000005 01 6b => 00000002 44 02
0000000f 05 00000001 0000000000000001 02 00 => 00000002 45 0d
00000001 08 =>  end";

/// The second of two calls that read one record conflicts with the first. The next call of its caller
/// reads anew, and commits.
const CONFLICT: &str = "\
0000000d 01 00000001 0000000000000007 => 00000014 41 02 00000005 02 00000006 02 0000000000000001
00000033 03 0002 00000001 0000000000000001 00000000 00000064 00 0001 6b 00000002 0000000000000001 00000000 00000064 00 0001 6b => \
0000003e 43 0002 00 0000000000000001 00 0000000000000001 0000 \
02 00000006 01 6b 0000000000000000 0000000000000001 0000000000000002 0000000000000002
0000001b 03 0001 00000002 0000000000000001 00000000 00000064 00 0001 6b => 00000017 43 0001 00 0000000000000002 00 0000000000000002 0000
00000001 08 =>  end";

/// Tables that are not the tenant's, or that it may only read. A tenant without extensions.
const DENIED: &str = "\
0000000d 01 00000002 0000000000000008 => 0000000f 41 01 00000005 01 0000000000000001
0000000a 06 00000009 01 6b 0001 76 => 00000002 46 01
0000000a 06 00000005 01 6b 0001 76 => 00000002 46 01
0000001b 03 0001 00000001 0000000000000001 00000000 00000064 00 0001 6b => 00000010 43 0001 07 00000000 0000000000000001
00000005 07 00000000 => 0000000e 47 01 00000000 0000000000000001
00000001 08 =>  end";

/// Texts that the grammar, the types and the ownership refuse, and then one that none does.
const TEXTS: &str = "\
0000000d 01 00000001 0000000000000007 => 00000014 41 02 00000005 02 00000006 02 0000000000000001
00000004 02 0001 78 => 00000007 42 01 00000001 05
00000022 02 001f 'fn main() -> int {' 0a 'return x;' 0a '}' 0a => 00000007 42 01 00000002 06
00000055 02 0052 'fn main() -> int {' 0a 'let b: temp = temp(1);' 0a 'let c: temp = b;' 0a 'return len(view(b));' 0a '}' 0a => 00000007 42 01 00000004 0d
00000022 02 001f 'fn main() -> int {' 0a 'return 7;' 0a '}' 0a => 0000000e 42 00 0000000000000001 00000001
0000001b 03 0001 00000001 0000000000000001 00000001 00000064 00 0001 6b => 00000017 43 0001 00 0000000000000002 00 0000000000000007 0000
00000001 08 =>  end";

/// A put takes the last of two entries; then there is room for nothing, and what is refused or stale is told first.
const FULL: &str = "\
0000000d 01 00000001 0000000000000007 => 00000014 41 02 00000005 02 00000006 02 0000000000000001
0000000a 06 00000005 01 6b 0001 76 => 0000000a 46 00 0000000000000001
0000000a 06 00000005 01 6b 0001 76 => 0000000a 46 02 0000000000000002
0000000a 06 00000009 01 6b 0001 76 => 00000002 46 01
00000022 02 001f 'fn main() -> int {' 0a 'return 0;' 0a '}' 0a => 0000000a 42 02 0000000000000002
00000004 02 0001 78 => 00000007 42 01 00000001 05
0000001b 03 0001 00000001 0000000000000001 00000000 00000064 00 0001 6b => 0000000c 43 0001 04 0000000000000002
0000001b 03 0001 00000001 0000000000000000 00000000 00000064 00 0001 6b => 00000014 43 0001 01 0000000000000000 0000000000000002
00000001 08 =>  end";

#[test]
fn the_worked_exchange(rt: HostRuntime) -> Result<(), Fail> {
    let alloc = rt.alloc();
    let mut bench = Bench::over(alloc, look_ups(alloc)?)?;
    ends_behind(&rt, alloc, &mut bench, ORDINARY)?;
    assert_eq!(rt; (bench.session.seen(), bench.book.len()), (3, 3));
    Ok(())
}

#[test]
fn calls_of_a_batch_are_refused_by_the_first_rule(rt: HostRuntime) -> Result<(), Fail> {
    let alloc = rt.alloc();
    let mut bench = Bench::over(alloc, look_ups(alloc)?)?;
    ends_behind(&rt, alloc, &mut bench, REFUSED)?;
    assert_eq!(rt; (bench.session.seen(), bench.session.room()), (5, 64));
    Ok(())
}

#[test]
fn each_outcome_and_what_is_not_parked(rt: HostRuntime) -> Result<(), Fail> {
    let alloc = rt.alloc();
    let mut bench = Bench::over(alloc, look_ups(alloc)?)?;
    ends_behind(&rt, alloc, &mut bench, OTHERS)?;
    assert_eq!(rt; bench.book.len(), 5);
    Ok(())
}

#[test]
fn two_calls_of_one_batch_conflict(rt: HostRuntime) -> Result<(), Fail> {
    let alloc = rt.alloc();
    let mut bench = Bench::over(alloc, counters(alloc, 9)?)?;
    ends_behind(&rt, alloc, &mut bench, CONFLICT)
}

#[test]
fn a_put_is_denied(rt: HostRuntime) -> Result<(), Fail> {
    let alloc = rt.alloc();
    let mut bench = Bench::over(alloc, counters(alloc, 9)?)?;
    ends_behind(&rt, alloc, &mut bench, DENIED)
}

#[test]
fn a_text_is_refused_by_each_check(rt: HostRuntime) -> Result<(), Fail> {
    let alloc = rt.alloc();
    let mut bench = Bench::over(alloc, counters(alloc, 9)?)?;
    ends_behind(&rt, alloc, &mut bench, TEXTS)
}

#[test]
fn a_full_journal_is_told(rt: HostRuntime) -> Result<(), Fail> {
    let alloc = rt.alloc();
    let mut bench = Bench::over(alloc, counters(alloc, 2)?)?;
    ends_behind(&rt, alloc, &mut bench, FULL)?;
    assert_eq!(rt; bench.book.len(), 2);
    Ok(())
}
