use crate::cases::{Case, End};
use crate::comparing::{plays, plays_in_all_sizes};
use std::alloc::Global;
use std::test::Fail;
use task::{Ext, ExtFault, PlainTask, Task};

const LOOK_UP: &str =
    "fn main() -> int { get(5, args()) { some s => { resp(s); } none => { } } return 0; }";

const COUNTER: &str =
    "fn main() -> int { let n: int = 0; get(6, args()) { some s => { n = u64(s, 0); } none => { } } let b: buf = alloc(6, args(), 8); set8(b, 0, n + 1); put(b); return n + 1; }";

const TWO_HOPS: &str =
    "fn main() -> int { get(5, args()) { some s => { multiget(5, s, 1) { some u => { resp(u); } none => { } } } none => { } } return 0; }";

const BLIND: &str =
    "fn main() -> int { let b: buf = alloc(6, \"k\", 1); set(b, 0, byte(args(), 0)); put(b); return 0; }";

const TORN_PAIR: &str =
    "fn main() -> int { let a: int = 0; let c: int = 0; get(6, \"a\") { some s => { a = u64(s, 0); } none => { } } get(6, \"b\") { some s => { c = u64(s, 0); } none => { } } while a != c { } return 0; }";

const OWN_WRITE: &str =
    "fn main() -> int { let b: buf = alloc(6, \"k\", 1); put(b); get(6, \"k\") { some s => { return byte(s, 0) + 5; } none => { } } return 9; }";

const READ_ALL: &str =
    "fn main() -> int { multiget(5, args(), 2) { some s => { } none => { } } return 0; }";

const ENDLESS: &str = "fn main() -> int { while true { } return 0; }";

const MANY_WRITES: &str =
    "fn main() -> int { let i: int = 0; while i < 65 { let k: temp = temp(1); set(k, 0, i); let b: buf = alloc(6, view(k), 0); put(b); i = i + 1; } return 0; }";

/// A run that reads nothing and writes nothing.
fn quiet(text: &'static str, budget: u32, table: u32) -> Case<'static> {
    Case {
        text,
        args: b"",
        budget,
        table,
        held: &[],
        wants: &[],
        units: budget,
        ends: End::Killed,
        puts: None,
    }
}

/// A statement and a read at 17 units, before the answer and the end.
fn look_up() -> Case<'static> {
    Case {
        args: b"k",
        held: &[(b"k", b"v1")],
        wants: &[(b"k", 17)],
        ends: End::Done(0, b"v1"),
        ..quiet(LOOK_UP, 19, 5)
    }
}

#[test]
fn a_look_up_in_turns_of_every_size(rt: HostRuntime) -> Result<(), Fail> {
    plays_in_all_sizes(&rt, rt.alloc(), &look_up())
}

#[test]
fn a_look_up_that_is_a_unit_short(rt: HostRuntime) -> Result<(), Fail> {
    let poor = Case {
        budget: 18,
        units: 18,
        ends: End::Killed,
        ..look_up()
    };
    plays_in_all_sizes(&rt, rt.alloc(), &poor)
}

/// A table that may not be read is trapped at the statement's unit, before the read's charge.
#[test]
fn a_look_up_that_is_denied(rt: HostRuntime) -> Result<(), Fail> {
    let denied = Case {
        table: 9,
        wants: &[],
        units: 1,
        ends: End::Trapped(4),
        ..look_up()
    };
    plays_in_all_sizes(&rt, rt.alloc(), &denied)
}

/// And so is a key that is too long.
#[test]
fn a_look_up_of_a_key_of_65_bytes(rt: HostRuntime) -> Result<(), Fail> {
    let long = Case {
        args: &[7; 65],
        wants: &[],
        units: 1,
        ends: End::Trapped(3),
        ..look_up()
    };
    plays_in_all_sizes(&rt, rt.alloc(), &long)
}

/// Two statements and a read at 18 units, and four more statements.
#[test]
fn a_counter_in_turns_of_every_size(rt: HostRuntime) -> Result<(), Fail> {
    let counter = Case {
        args: b"c",
        wants: &[(b"c", 18)],
        ends: End::Done(1, b""),
        puts: Some((b"c", &[1, 0, 0, 0, 0, 0, 0, 0])),
        ..quiet(COUNTER, 22, 6)
    };
    plays_in_all_sizes(&rt, rt.alloc(), &counter)
}

/// The read at 17 units, the statement behind it at 18, and its reads at 34 and, behind an answer, 51.
#[test]
fn two_hops_in_turns_of_every_size(rt: HostRuntime) -> Result<(), Fail> {
    let hops = Case {
        args: b"a",
        held: &[(b"a", b"bc"), (b"b", b"ad"), (b"c", b"a")],
        wants: &[(b"a", 17), (b"b", 34), (b"c", 51)],
        ends: End::Done(0, b"ada"),
        ..quiet(TWO_HOPS, 53, 5)
    };
    plays_in_all_sizes(&rt, rt.alloc(), &hops)
}

/// Where the records differ the loop never ends: both reads are kept, and the budget is spent.
#[test]
fn a_torn_pair_is_killed_with_both_reads(rt: HostRuntime) -> Result<(), Fail> {
    let torn = Case {
        held: &[(b"b", &[1, 0, 0, 0, 0, 0, 0, 0])],
        wants: &[(b"a", 19), (b"b", 36)],
        ..quiet(TORN_PAIR, 60, 6)
    };
    plays_in_all_sizes(&rt, rt.alloc(), &torn)
}

/// Four statements; the buffer of one byte costs nothing.
fn blind() -> Case<'static> {
    Case {
        args: &[1],
        ends: End::Done(0, b""),
        puts: Some((b"k", &[1])),
        ..quiet(BLIND, 4, 6)
    }
}

#[test]
fn a_blind_write_in_turns_of_every_size(rt: HostRuntime) -> Result<(), Fail> {
    plays_in_all_sizes(&rt, rt.alloc(), &blind())
}

#[test]
fn a_blind_write_that_is_a_unit_short_writes_nothing(rt: HostRuntime) -> Result<(), Fail> {
    let poor = Case {
        budget: 3,
        units: 3,
        ends: End::Killed,
        puts: None,
        ..blind()
    };
    plays_in_all_sizes(&rt, rt.alloc(), &poor)
}

/// Two statements, a read of the pending write at 19 units, which wants no record, and the end.
#[test]
fn a_run_sees_its_own_write(rt: HostRuntime) -> Result<(), Fail> {
    let own = Case {
        units: 20,
        ends: End::Done(5, b""),
        puts: Some((b"k", &[0])),
        ..quiet(OWN_WRITE, 100, 6)
    };
    plays_in_all_sizes(&rt, rt.alloc(), &own)
}

/// The 65th place is one too many. Before it are 2 units and 64 turns of the loop with 6 each, and the turn
/// with the trap has 5 up to its `put`.
#[test]
fn the_65th_place_traps(rt: HostRuntime) -> Result<(), Fail> {
    let many = Case {
        units: 391,
        ends: End::Trapped(3),
        ..quiet(MANY_WRITES, 1_000, 6)
    };
    plays_in_all_sizes(&rt, rt.alloc(), &many)
}

/// The keys 0 to 511, of two bytes each.
fn keys(alloc: Global) -> Result<Vec<u8>, Fail> {
    let mut keys = Vec::new(alloc);
    for number in 0..512u16 {
        for byte in number.to_be_bytes() {
            keys.push(byte)?;
        }
    }
    Ok(keys)
}

/// Each key costs 16 units behind the statement's one, so 5,000 units read 312 of the 512 keys.
#[test]
fn reads_until_the_budget_is_spent(rt: HostRuntime) -> Result<(), Fail> {
    let alloc = rt.alloc();
    let args = keys(alloc)?;
    let mut wants = Vec::new(alloc);
    for k in 0..312u32 {
        let at = 2 * k as usize;
        if let Some(name) = args.get(at..at + 2) {
            wants.push((name, 17 + 16 * k))?;
        }
    }
    let all = Case {
        args: args.as_slice(),
        wants: wants.as_slice(),
        ..quiet(READ_ALL, 5_000, 5)
    };
    for quantum in [17, 5_000] {
        plays::<Task>(&rt, alloc, &all, quantum)?;
        plays::<PlainTask>(&rt, alloc, &all, quantum)?;
    }
    Ok(())
}

/// Each turn of one unit is one of the loop. A body that begins anew at each turn would make a hundred
/// thousand million of them, for which no test has the time.
#[test]
fn endless_calls_are_killed_in_turns_of_one_unit(rt: HostRuntime) -> Result<(), Fail> {
    for _call in 0..20u32 {
        plays::<Task>(&rt, rt.alloc(), &quiet(ENDLESS, 100_000, 5), 1)?;
    }
    Ok(())
}

/// A text that breaks a rule of types and one of ownership is told the first, on line 3.
#[test]
fn a_refusal_by_types_comes_before_one_by_ownership(rt: HostRuntime) -> Result<(), Fail> {
    let text =
        b"fn main() -> int {\nlet b: temp = temp(4); let s: slice = view(b); set(b, 0, 1);\nlet x: int = true;\nreturn byte(s, 0);\n}\n";
    match Ext::make(rt.alloc(), text) {
        Err(ExtFault::Rejected { line, code }) => {
            assert_eq!(rt; line, 3);
            assert!(rt; matches!(code, ext_mean::Refusal::Types(ext_mean::TypeCode::Kind)));
        }
        _ => assert!(rt; false),
    }
    Ok(())
}
