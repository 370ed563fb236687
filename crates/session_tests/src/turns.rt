//! Two sessions share one book, each in its turn.

ghost use Rattle.std.specs.Prelude.{IfOk};
ghost use Rattle.drive.specs.Hearing.{MayBeDriven};

use crate::bench::{Bench, exchange, opened};
use crate::stores::counters;
use framing::Framer;
use session::Session;
use std::alloc::Global;
use std::mem::swap;
use std::process::Abort;
use std::test::Fail;

/// Each line is said to the first session and to the second in turn: both count under one key, by callers of their own.
const COUNTS: &str = "\
0000000d 01 00000001 0000000000000007 => 00000014 41 02 00000005 02 00000006 02 0000000000000001
0000000d 01 00000001 0000000000000007 => 00000014 41 02 00000005 02 00000006 02 0000000000000001
0000001b 03 0001 00000001 0000000000000001 00000000 00000064 00 0001 6b => 00000017 43 0001 00 0000000000000001 00 0000000000000001 0000
0000001b 03 0001 00000002 0000000000000001 00000000 00000064 00 0001 6b => 00000017 43 0001 00 0000000000000002 00 0000000000000002 0000
0000001b 03 0001 00000001 0000000000000002 00000000 00000064 00 0001 6b => 00000017 43 0001 00 0000000000000003 00 0000000000000003 0000
0000001b 03 0001 00000002 0000000000000001 00000000 00000064 00 0001 6b => 00000014 43 0001 01 0000000000000001 0000000000000004
0000001b 03 0001 00000001 0000000000000002 00000000 00000064 00 0001 6b => 00000014 43 0001 01 0000000000000002 0000000000000004
0000001b 03 0001 00000002 0000000000000002 00000000 00000064 00 0001 6b => 00000017 43 0001 00 0000000000000004 00 0000000000000004 0000
00000005 07 00000001 => 0000000e 47 01 00000001 0000000000000005
00000005 07 00000001 => 0000000e 47 01 00000001 0000000000000005";

/// An exchange of the session at the bench, which does not end it; what it has seen does not go back. Another one over its
/// book may be driven on.
fn goes_on(
    rt: &impl Abort,
    alloc: Global,
    bench: &mut Bench,
    other: &Session,
    line: &str,
) -> Result<(), Fail>
    requires ready { MayBeDriven bench.old.session bench.old.book }
    requires other { MayBeDriven other.now bench.old.book }
    ensures ready { IfOk result (λ _. MayBeDriven bench.new.session bench.new.book) }
    ensures other { MayBeDriven other.now bench.new.book }
{
    let before = bench.session.seen();
    let ended = exchange(rt, alloc, bench, line)?;
    assert!(rt; before <= bench.session.seen(), "{line}");
    if ended {
        return Err(Fail::new("the session has ended"));
    }
    Ok(())
}

#[test]
fn each_session_sees_its_own_writes_and_what_it_sees_never_goes_back(
    rt: HostRuntime,
) -> Result<(), Fail> {
    let alloc = rt.alloc();
    let mut bench = Bench::over(alloc, counters(alloc, 100)?)?;
    let mut other = opened(alloc, &bench.book)?;
    let mut other_framer = Framer::new(alloc);
    for line in COUNTS.lines() {
        goes_on(&rt, alloc, &mut bench, &other, line)?;
        swap(&mut bench.session, &mut other);
        swap(&mut bench.framer, &mut other_framer);
    }
    assert_eq!(rt; (bench.session.seen(), other.seen()), (5, 5));
    Ok(())
}
