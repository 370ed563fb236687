use crate::cases::{Case, End};
use crate::ends::{is_as_worked_out, sent, sent_plainly};
use std::alloc::Global;
use std::process::Abort;
use std::test::Fail;

const LOOK_UP: &str =
    "fn main() -> int { get(5, args()) { some s => { resp(s); } none => { } } return 0; }";

const COUNTER: &str =
    "fn main() -> int { let n: int = 0; get(6, args()) { some s => { n = u64(s, 0); } none => { } } let b: buf = alloc(6, args(), 8); set8(b, 0, n + 1); put(b); return n + 1; }";

const TWO_HOPS: &str =
    "fn main() -> int { get(5, args()) { some s => { multiget(5, s, 1) { some u => { resp(u); } none => { } } } none => { } } return 0; }";

const TORN_PAIR: &str =
    "fn main() -> int { let a: int = 0; let c: int = 0; get(6, \"a\") { some s => { a = u64(s, 0); } none => { } } get(6, \"b\") { some s => { c = u64(s, 0); } none => { } } while a != c { } return 0; }";

/// The case by both bodies, pushed behind each number of reads below this one.
fn carries(rt: &impl Abort, alloc: Global, case: &Case, below: usize) -> Result<(), Fail> {
    for kept in 0..below {
        is_as_worked_out(rt, case, &sent(alloc, case, kept)?);
        is_as_worked_out(rt, case, &sent_plainly(alloc, case, kept)?);
    }
    Ok(())
}

/// A statement and a read before the answer and the end: 17, 18 and 19 units. The units that were spent
/// before the push are not taken off.
#[test]
fn a_look_up_ends_with_its_whole_budget(rt: HostRuntime) -> Result<(), Fail> {
    let found = Case {
        text: LOOK_UP,
        args: b"k",
        budget: 19,
        table: 5,
        held: &[(b"k", b"v1")],
        reads: &[b"k"],
        ends: End::Done(0, b"v1"),
        puts: None,
    };
    carries(&rt, rt.alloc(), &found, 2)?;
    let poor = Case {
        budget: 18,
        ends: End::Killed,
        ..found
    };
    carries(&rt, rt.alloc(), &poor, 2)
}

/// A table that the call may not read, and a key that is too long.
#[test]
fn a_trap_is_sent(rt: HostRuntime) -> Result<(), Fail> {
    let denied = Case {
        text: LOOK_UP,
        args: b"k",
        budget: 19,
        table: 9,
        held: &[],
        reads: &[],
        ends: End::Trapped(4),
        puts: None,
    };
    carries(&rt, rt.alloc(), &denied, 1)?;
    let long = Case {
        args: &[7; 65],
        table: 5,
        ends: End::Trapped(3),
        ..denied
    };
    carries(&rt, rt.alloc(), &long, 1)
}

/// Two statements and a read at 18 units, and four more statements.
#[test]
fn a_counter_sends_its_write(rt: HostRuntime) -> Result<(), Fail> {
    let counter = Case {
        text: COUNTER,
        args: b"c",
        budget: 22,
        table: 6,
        held: &[],
        reads: &[b"c"],
        ends: End::Done(1, b""),
        puts: Some(&[1, 0, 0, 0, 0, 0, 0, 0]),
    };
    carries(&rt, rt.alloc(), &counter, 2)
}

/// The read at 17 units, the statement behind it at 18, and its reads at 34 and, behind an answer, 51.
#[test]
fn a_call_is_pushed_between_any_of_its_reads(rt: HostRuntime) -> Result<(), Fail> {
    let hops = Case {
        text: TWO_HOPS,
        args: b"a",
        budget: 53,
        table: 5,
        held: &[(b"a", b"bc"), (b"b", b"ad"), (b"c", b"a")],
        reads: &[b"a", b"b", b"c"],
        ends: End::Done(0, b"ada"),
        puts: None,
    };
    carries(&rt, rt.alloc(), &hops, 4)
}

/// Where the records differ the loop never ends: both reads are kept, and the budget is spent.
#[test]
fn a_torn_pair_is_killed_at_its_client(rt: HostRuntime) -> Result<(), Fail> {
    let torn = Case {
        text: TORN_PAIR,
        args: b"",
        budget: 60,
        table: 6,
        held: &[(b"b", &[1, 0, 0, 0, 0, 0, 0, 0])],
        reads: &[b"a", b"b"],
        ends: End::Killed,
        puts: None,
    };
    carries(&rt, rt.alloc(), &torn, 3)
}
