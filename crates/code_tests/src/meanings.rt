//! What extensions mean: tables of programs, each with its reply, changes, units or trap, worked
//! out by hand from the rules of the language. A case stands on one line: the statements of `main`,
//! or a whole program that begins with `fn`, and then what is wanted.

use super::machine::Case;
use super::running::{expect, expect_all, expect_runs, run};
use super::texts::parts;
use ext_mean::Run;
use std::alloc::Global;
use std::test::Fail;

/// The charge of each construct: a program, and the units that are just enough for it.
const CHARGES: &str = r#"return 0; => 1
return len(args()) + 2 * byte("a", 0); => 1
let n: int = 0; return 0; => 2
let n: int = 0; n = 1; return 0; => 3
if true { } return 0; => 2
if false { } else { let n: int = 1; } return 0; => 3
while false { } return 0; => 3
let i: int = 0; while i < 3 { i = i + 1; } return 0; => 10
get(5, "k") { some s => { } none => { } } return 0; => 18
get(6, "none") { some s => { } none => { let n: int = 1; } } return 0; => 19
multiget(5, "abc", 1) { some s => { } none => { } } return 0; => 50
multiget(5, "abc", 1) { some s => { let n: int = 1; } none => { } } return 0; => 53
multiget(5, "", 1) { some s => { } none => { } } return 0; => 2
let b: temp = temp(15); return 0; => 2
let b: temp = temp(16); return 0; => 3
let b: temp = temp(4096); return 0; => 258
let b: buf = alloc(6, "k", 15); return 0; => 2
let b: buf = alloc(6, "k", 4096); return 0; => 258
let b: temp = temp(1); set(b, 0, 255); return 0; => 3
let b: temp = temp(8); set8(b, 0, 1); return 0; => 3
let b: temp = temp(2); copy(b, 0, "xy"); return 0; => 3
let b: buf = alloc(6, "k", 0); put(b); return 0; => 3
del(6, "k"); return 0; => 2
resp("xy"); return 0; => 2
del(6, "one"); get(6, "one") { some s => { } none => { } } return 0; => 19
fn f(n: int) -> int { return n; } fn main() -> int { let x: int = f(7); return x; } => 3"#;

/// What programs without arguments mean with enough units: numbers, left sides that decide, buffers
/// as bytes, variables of blocks and of functions, reads of pending changes, one change a place.
const MEANINGS: &str = r#"return 18446744073709551615 + 1; => 1 done 0 x
return 0 - 1; => 1 done 18446744073709551615 x
return 18446744073709551615 * 3; => 1 done 18446744073709551613 x
return 18446744073709551615 / 2; => 1 done 9223372036854775807 x
return 7 % 4; => 1 done 3 x
return u64("abcdefgh", 0); => 1 done 7523094288207667809 x
resp(sub("abcdef", 2, 3)); return 0; => 2 done 0 x636465
if false && 1 / 0 == 0 { return 1; } return 2; => 2 done 2 x
if true || 1 / 0 == 0 { return 1; } return 2; => 2 done 1 x
if true && 1 / 0 == 0 { } return 2; => 1 trap 2
if false || 1 / 0 == 0 { } return 2; => 1 trap 2
if !("ab" == "ab") { return 1; } return 2; => 2 done 2 x
if "ab" != "ac" { return 1; } return 2; => 2 done 1 x
if true == false { return 1; } return 2; => 2 done 2 x
if 3 <= 3 { return 1; } return 2; => 2 done 1 x
if 3 > 3 { return 1; } return 2; => 2 done 2 x
let b: temp = temp(10); set8(b, 1, 258); set(b, 9, 255); copy(b, 0, "z"); resp(view(b)); return 0; => 6 done 0 x7a0201000000000000ff
if true { let n: int = 5; } let n: int = 7; return n; => 4 done 7 x
let i: int = 0; while i < 3 { i = i + 1; if i == 2 { return i; } } return 9; => 9 done 2 x
multiget(5, "abc", 1) { some s => { return byte(s, 0); } none => { } } return 0; => 18 done 98 x
multiget(6, "oneone", 3) { some s => { resp(s); } none => { return 5; } } return 0; => 36 done 0 x01000000000000000100000000000000
get(6, "none") { some s => { return 1; } none => { return 2; } } return 3; => 18 done 2 x
fn f(n: int, m: int) -> int { let k: int = n - m; return k; } fn main() -> int { let k: int = 1; let r: int = f(9, 4); return r + k; } => 5 done 6 x
fn f(n: int) -> int { return n + 1; } fn g(n: int) -> int { let a: int = f(n); return a * 2; } fn main() -> int { let r: int = g(4); return r; } => 5 done 10 x
let b: buf = alloc(6, "k", 1); put(b); get(6, "k") { some s => { return byte(s, 0) + 5; } none => { } } return 9; => 20 done 5 x 6 x6b put x00
del(6, "one"); get(6, "one") { some s => { return 1; } none => { return 2; } } return 3; => 19 done 2 x 6 x6f6e65 del
let b: buf = alloc(6, "k", 0); put(b); del(6, "j"); let c: buf = alloc(6, "k", 1); put(c); return 0; => 6 done 0 x 6 x6b put x00 6 x6a del
let b: buf = alloc(6, "k", 1); put(b); resp("x"); return 1 / 0; => 4 trap 2
let b: temp = temp(4096); resp(view(b)); resp("x"); return 0; => 259 trap 3
let b: temp = temp(2); copy(b, 2, ""); return 0; => 3 done 0 x
multiget(7, "", 1) { some s => { } none => { } } return 0; => 2 done 0 x"#;

/// Programs that a statement traps, each with the trap behind the units used. Where two tests fail
/// at once, the first one tells.
const TRAPS: &str = r#"return 1 / 0; => 1 trap 2
return 1 % 0; => 1 trap 2
return byte("ab", 2); => 1 trap 1
return byte("ab", 4294967296); => 1 trap 1
return byte("ab", 18446744073709551615); => 1 trap 1
return u64("12345678", 1); => 1 trap 1
return u64("12345678", 18446744073709551609); => 1 trap 1
resp(sub("abc", 2, 2)); return 0; => 1 trap 1
resp(sub("abc", 18446744073709551615, 2)); return 0; => 1 trap 1
resp(sub("abc", 2, 18446744073709551615)); return 0; => 1 trap 1
get(5, "") { some s => { } none => { } } return 0; => 1 trap 3
get(7, "k") { some s => { } none => { } } return 0; => 1 trap 4
get(4294967301, "k") { some s => { } none => { } } return 0; => 1 trap 4
get(7, "") { some s => { } none => { } } return 0; => 1 trap 3
multiget(5, "abc", 0) { some s => { } none => { } } return 0; => 1 trap 5
multiget(5, "abc", 2) { some s => { } none => { } } return 0; => 1 trap 5
multiget(5, "", 65) { some s => { } none => { } } return 0; => 1 trap 5
multiget(7, "abc", 2) { some s => { } none => { } } return 0; => 1 trap 5
multiget(7, "ab", 1) { some s => { } none => { } } return 0; => 1 trap 4
let b: buf = alloc(6, "", 1); return 0; => 1 trap 3
let b: buf = alloc(6, "k", 4097); return 0; => 1 trap 3
let b: buf = alloc(5, "k", 1); return 0; => 1 trap 4
let b: buf = alloc(4294967302, "k", 1); return 0; => 1 trap 4
let b: buf = alloc(5, "", 1); return 0; => 1 trap 3
let b: buf = alloc(5, "k", 4097); return 0; => 1 trap 3
let b: buf = alloc(5, "k", 4096); return 0; => 1 trap 4
let b: temp = temp(4097); return 0; => 1 trap 3
let b: temp = temp(18446744073709551615); return 0; => 1 trap 3
let b: temp = temp(1); set(b, 1, 0); return 0; => 2 trap 1
let b: temp = temp(1); set(b, 0, 256); return 0; => 2 trap 1
let b: temp = temp(1); set(b, 4294967296, 0); return 0; => 2 trap 1
let b: temp = temp(1); set(b, 18446744073709551615, 0); return 0; => 2 trap 1
let b: temp = temp(7); set8(b, 0, 0); return 0; => 2 trap 1
let b: temp = temp(8); set8(b, 1, 0); return 0; => 2 trap 1
let b: temp = temp(8); set8(b, 18446744073709551609, 0); return 0; => 2 trap 1
let b: temp = temp(2); copy(b, 1, "xy"); return 0; => 2 trap 1
let b: temp = temp(2); copy(b, 18446744073709551615, "xy"); return 0; => 2 trap 1
del(6, ""); return 0; => 1 trap 3
del(5, "k"); return 0; => 1 trap 4
del(5, ""); return 0; => 1 trap 3
return byte(sub("a", 0, 2), 1 / 0); => 1 trap 1
return 1 / 0 + byte("", 0); => 1 trap 2
get(1 / 0, sub("a", 0, 2)) { some s => { } none => { } } return 0; => 1 trap 2
get(7, sub("a", 0, 2)) { some s => { } none => { } } return 0; => 1 trap 1
multiget(7, sub("a", 0, 2), 1 / 0) { some s => { } none => { } } return 0; => 1 trap 1
let b: buf = alloc(5, "", 1 / 0); return 0; => 1 trap 2
let b: temp = temp(1); set(b, 1 / 0, byte("", 0)); return 0; => 2 trap 2
let b: temp = temp(1); set(b, 9, 1 / 0); return 0; => 2 trap 2
let b: temp = temp(1); copy(b, 9, sub("a", 1 / 0, 0)); return 0; => 2 trap 2
del(5, sub("a", 0, 2)); return 0; => 1 trap 1"#;

/// The bytes at a key.
const LOOK_UP: &str = "get(5, args()) { some s => { resp(s); } none => { } } return 0;";

/// A counter.
const COUNT: &str = "let n: int = 0;
get(6, args()) { some s => { n = u64(s, 0); } none => { } }
let b: buf = alloc(6, args(), 8);
set8(b, 0, n + 1);
put(b);
return n + 1;";

/// The records that a record names.
const FOLLOW: &str = "get(5, args()) {
  some s => { multiget(5, s, 1) { some u => { resp(u); } none => { } } }
  none => { }
}
return 0;";

/// A write without a read.
const WRITE: &str = r#"let b: buf = alloc(6, "k", 1);
set(b, 0, byte(args(), 0));
put(b);
return 0;"#;

/// A loop until two records are equal.
const AGREE: &str = r#"let a: int = 0;
let c: int = 0;
get(6, args()) { some s => { a = u64(s, 0); } none => { } }
get(6, "one") { some s => { c = u64(s, 0); } none => { } }
while a != c { }
return 0;"#;

#[test]
fn extensions_mean_what_is_told_of_them(rt: HostRuntime) -> Result<(), Fail> {
    let alloc = rt.alloc();
    let look_ups = "k 100 => 19 done 0 x7631\nk 18 => spent\nz 17 => 17 wants 5 x7a\nz 16 => spent";
    expect_runs(&rt, alloc, LOOK_UP, look_ups)?;
    let counts = "none 100 => 22 done 1 x 6 x6e6f6e65 put x0100000000000000\n\
                  one 100 => 23 done 2 x 6 x6f6e65 put x0200000000000000\n\
                  new 100 => 18 wants 6 x6e6577";
    expect_runs(&rt, alloc, COUNT, counts)?;
    let two_hops = "a 100 => 53 done 0 x616461\nk 100 => 34 wants 5 x76";
    expect_runs(&rt, alloc, FOLLOW, two_hops)?;
    expect_runs(
        &rt,
        alloc,
        "del(6, args()); return 0;",
        "one 9 => 2 done 0 x 6 x6f6e65 del",
    )?;
    expect_runs(
        &rt,
        alloc,
        WRITE,
        "A 4 => 4 done 0 x 6 x6b put x41\nA 3 => spent",
    )?;
    let loops = "none 60 => spent\none 60 => 41 done 0 x\nnew 60 => 19 wants 6 x6e6577";
    expect_runs(&rt, alloc, AGREE, loops)?;
    expect_all(&rt, alloc, MEANINGS)
}

#[test]
fn the_first_test_that_fails_traps_before_its_units(rt: HostRuntime) -> Result<(), Fail> {
    let alloc = rt.alloc();
    expect_all(&rt, alloc, TRAPS)?;
    for case in [
        "get(7, args()) { some s => { } none => { } } return 0;",
        "multiget(7, args(), 1) { some s => { } none => { } } return 0;",
        "let b: buf = alloc(5, args(), 4096); return 0;",
    ] {
        expect(&rt, alloc, case, b"k", 1, "1 trap 4")?;
    }
    expect(&rt, alloc, "return 1 / 0;", b"k", 0, "spent")
}

#[test]
fn each_construct_has_its_charge(rt: HostRuntime) -> Result<(), Fail> {
    let alloc = rt.alloc();
    for line in CHARGES.lines() {
        let (case, units) = parts(line)?;
        let units = units.parse::<u32>()?;
        match run(&rt, alloc, case, b"", units)? {
            Run::Done { used, .. } => assert_eq!(rt; used, units, "{case}"),
            _ => assert!(rt; false, "{case}"),
        }
        expect(&rt, alloc, case, b"", units.saturating_sub(1), "spent")?;
    }
    Ok(())
}

/// Writes at 64 places. What follows goes on behind them.
const SIXTY_FOUR: &str = "let i: int = 0;
while i < 64 {
  let k: temp = temp(1);
  set(k, 0, i);
  let b: buf = alloc(6, view(k), 0);
  put(b);
  i = i + 1;
}";

#[test]
fn a_65th_place_is_one_too_many(rt: HostRuntime) -> Result<(), Fail> {
    let alloc = rt.alloc();
    let again = format!(in alloc;
        "{SIXTY_FOUR} let b: buf = alloc(6, \"?\", 0); put(b); return 0;"
    )?;
    match run(&rt, alloc, again.as_str(), b"", 1000)? {
        Run::Done { writes, used, .. } => {
            assert_eq!(rt; writes.len(), 64);
            assert_eq!(rt; used, 390);
        }
        _ => assert!(rt; false),
    }
    let another = format!(in alloc; "{SIXTY_FOUR} del(6, \"kk\"); return 0;")?;
    expect(&rt, alloc, another.as_str(), b"", 1000, "388 trap 3")?;
    let another = format!(in alloc;
        "{SIXTY_FOUR} let b: buf = alloc(6, \"kk\", 0); put(b); return 0;"
    )?;
    expect(&rt, alloc, another.as_str(), b"", 1000, "389 trap 3")
}

#[test]
fn limits_hold_to_the_last_byte(rt: HostRuntime) -> Result<(), Fail> {
    let alloc = rt.alloc();
    let full = "let b: temp = temp(4096); resp(view(b)); return 0;";
    match run(&rt, alloc, full, b"", 1000)? {
        Run::Done { reply, .. } => assert_eq!(rt; reply.bytes.len(), 4096),
        _ => assert!(rt; false),
    }
    let key = [b'k'; 65];
    for case in [
        LOOK_UP,
        "del(6, args()); return 0;",
        "let b: buf = alloc(6, args(), 1); return 0;",
    ] {
        expect(&rt, alloc, case, &key, 1000, "1 trap 3")?;
    }
    match run(&rt, alloc, LOOK_UP, &key[..64], 1000)? {
        Run::Wants { used, .. } => assert_eq!(rt; used, 17),
        _ => assert!(rt; false),
    }
    let wide = "multiget(5, args(), 65) { some s => { } none => { } } return 0;";
    expect(&rt, alloc, wide, &key, 1000, "1 trap 5")?;
    let turning = "let i: int = 0; while true { i = i + 1; } return 0;";
    let turning = Case::of(alloc, turning, b"", 100_000)?;
    let wanted = turning.by_evaluator(alloc)?;
    assert_eq!(rt; wanted.as_str(), "spent\n");
    assert_eq!(rt; turning.by_machine(alloc, 1_000)?.as_str(), wanted.as_str());
    Ok(())
}

/// Adds a function that calls the one before it inside the most brackets: its body, 30 blocks and
/// the arguments. Besides that call it uses 32 units.
fn push_deep(alloc: Global, text: &mut String, number: u32) -> Result<(), Fail> {
    let before = number.saturating_sub(1);
    let open = "if true { ".repeat(alloc, 30)?;
    let close = "} ".repeat(alloc, 30)?;
    write!(text, "fn f{number}() -> int {{ {open}")?;
    write!(text, "let x: int = f{before}(); return x; ")?;
    write!(text, "{close}return 0; }}\n")?;
    Ok(())
}

/// The most functions: 30 of these, one before them, and `main`. No proof speaks of the stack.
#[test]
fn the_deepest_calls_have_stack_enough(rt: HostRuntime) -> Result<(), Fail> {
    let alloc = rt.alloc();
    let mut text = String::from_str(alloc, "fn f0() -> int { return 1; }\n")?;
    for number in 1..31u32 {
        push_deep(alloc, &mut text, number)?;
    }
    text.push_str("fn main() -> int { let x: int = f30(); return x; }")?;
    expect(&rt, alloc, text.as_str(), b"", 1000, "963 done 1 x")
}
