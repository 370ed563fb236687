//! Programs that are easily judged wrongly. A case is a line: the answer that the rules of the
//! language give, `ok` or a line and a code, and then a program or a part of one, with `~` for a
//! newline.

use ext_check::{CheckFault, check_text};
use ext_mean::Refusal;
use std::alloc::Global;
use std::process::Abort;
use std::test::Fail;

const PROGRAMS: &str = r#"2 NoName: fn main() -> int {~let n: int = main(y); return 0; }
2 Twice: fn main(a: int) -> int { return a; }~fn main() -> int { return 0; }
ok: fn n() -> int { return 1; }~fn main() -> int { let n: int = n(); return n; }
2 Order: fn main() -> int {~let n: int = main(); return n; }
3 Order: fn main() -> int { let n: int = 1;~~let n: bool = main(1, true); return 0; }
1 Kind: fn main() -> slice { return args(); }
ok: fn f() -> buf { return alloc(6, "k", 1); } fn main() -> int { let b: buf = f(); return 0; }
1 NoReturn: fn main() -> int { while true { return 0; } }
1 NoReturn: fn main() -> int {~x = 1; }
1 NoReturn: fn f(a: int) -> bool { }
1 Main: fn f() -> int { return 0; }
1 Main: fn f() -> int {~x = 1; return 0; }
2 Main: fn main() -> int { return 0; }~fn f() -> int { return 0; }
1 Main: fn main(a: int) -> int { return a; }
1 Main: fn main() -> bool { return true; }
1 Twice: fn main(a: int, a: int) -> int { return 0; }"#;

/// Functions before a `main`.
const FUNCTIONS: &str = r#"1 Twice: fn f(a: int, a: bool) -> int { return 0; }
ok: fn f(a: int, b: bool) -> int { return 0; }~fn g(a: int) -> int { return a; }
2 Twice: fn f(a: int) -> int {~let a: int = 1; return a; }
2 Twice: fn f() -> int { return 0; }~fn f() -> slice { }
3 Twice: fn f()->int{ return 1; }~fn g()->int{ let n: int = f(); return n; }~fn f() -> bool { }
2 Order: fn f() -> int {~let n: int = f(); return n; }
2 Order: fn f() -> int {~let n: int = g(); return n; }~fn g() -> int { return 0; }
ok: fn g() -> int { return 0; }~fn f() -> int { let n: int = g(); return n; }
1 Kind: fn f() -> slice { return args(); }
1 Kind: fn f() -> slice { }
2 Kind: fn f(a: temp) -> temp { return a; }~fn g(a: buf) -> bool { return a; }
1 NoReturn: fn f() -> int { if true { return 1; } else { return 2; } }
2 Moved: fn f(b: temp) -> temp { let c: temp = b;~return b; }
2 Frozen: fn f(b: temp) -> temp { let s: slice = view(b);~return b; }
ok: fn f(b: temp) -> temp { if true { let s: slice = view(b); } return b; }
3 Frozen: fn f(b: temp, s: slice) -> int {~s = view(b);~set(b, 0, 1); return 0; }
ok: fn f(b: temp, s: slice) -> int { set(b, 0, 1); return byte(s, 0); }
2 Frozen: fn f(b: temp)->temp{ multiget(5, view(b), 1) {some s=>{~return b; } none=>{ }} return b; }
2 Outlived: fn f(s: slice, b: temp) -> int {~s = view(b); return 0; }
4 Expected: fn f(b: temp) -> temp { let c: temp = b;~set(b, 0, 1);~n = 1;~return b }
3 NoName: fn f(b: temp) -> temp { let c: temp = b;~set(b, 0, 1);~n = 1;~return b; }
2 Moved: fn f(b: temp) -> temp { let c: temp = b;~set(b, 0, 1);~return b; }"#;

/// Statements in the block of `main`, from its second line on.
const TYPES: &str = r#"ok: let n: int = 1;~n = n + 1;
3 NoName: let n: int = 1;~m = n;
2 NoName: let n: int = n;
2 NoName: n = 1 + true;
2 NoName: set(b, 0, 1);
2 NoName: put(b);
2 NoName: resp(view(b));
3 NoName: if true { let n: int = 1; }~n = 2;
3 NoName: while true { let n: int = 1; }~n = 2;
3 NoName: if true { let n: int = 1; } else {~n = 2; }
ok: get(5, args()) { some s => { resp(s); } none => { } }
3 NoName: get(5, args()) { some s => { } none => {~resp(s); } }
3 NoName: multiget(5, args(), 1) { some s => { } none => { } }~resp(s);
2 NoName: get(5, s) { some s => { } none => { } }
2 NoName: let n: int = nothing();
ok: let n: int = take(temp(1));
2 NoName: let x: int = true + y;
3 Kind: let y: int = 1;~let x: int = true + y;
2 NoName: let n: int = take(1, 2, y);
2 NoName: let n: int = late(y);
3 Twice: let n: int = 1;~let n: bool = true;
4 Twice: let n: int = 1;~if true {~let n: int = 2; }
ok: if true { let n: int = 1; } else { let n: bool = true; }~let n: slice = args();
ok: while false { let n: int = 1; }~let n: int = 2;
3 Twice: let s: int = 1;~get(5, args()) { some s => { } none => { } }
3 Twice: let s: int = 1;~multiget(5, args(), 1) { some s => { } none => { } }
3 Twice: get(5, args()) { some s => {~let s: int = 1; } none => { } }
ok: get(5, args()) { some s => { } none => { let s: int = 1; } }~let s: bool = true;
3 Twice: let n: int = 1;~let n: int = take();
2 Count: let n: int = take();
2 Count: let n: int = take(temp(1), temp(1));
2 Count: let n: int = late(true);
2 Count: let n: bool = take();
2 Kind: let n: int = late(temp(1), true);
2 Kind: let n: bool = take(temp(1));
2 Kind: let n: int = true;
3 Kind: let n: int = 1;~n = true;
2 Kind: if 1 { }
2 Kind: while 0 { }
ok: if 1 == 2 && true != false || args() == "a" || !true { }
2 Kind: if 1 == true { }
4 Kind: let b: temp = temp(1);~let c: temp = temp(1);~if b == c { }
3 Kind: let b: temp = temp(1);~if b != b { }
2 Kind: if true < false { }
2 Kind: if "a" >= "b" { }
2 Kind: if 1 && true { }
2 Kind: if true || 1 { }
2 Kind: if !1 { }
2 Kind: let n: int = 1 + "a";
2 Kind: let n: bool = 1 % 2;
ok: let n: int = len(sub(args(), 0, 1)) + byte(args(), 0) * u64("a", 0);
2 Kind: let n: int = len(1);
2 Kind: let n: int = byte(args(), true);
2 Kind: let n: int = byte(0, args());
2 Kind: let n: int = u64(args(), args());
2 Kind: let s: slice = sub(args(), 0, true);
2 Kind: let s: slice = sub(args(), true, 0);
2 Kind: let s: slice = sub(temp(1), 0, 1);
3 Kind: let n: int = 1;~resp(view(n));
3 Kind: let s: slice = args();~resp(view(s));
3 Kind: let b: temp = temp(1);~resp(b);
ok: let b: buf = alloc(6, "k", 1);~set(b, 0, 1);~resp(view(b));~put(b);
2 Kind: let b: temp = alloc(6, "k", 1);
2 Kind: let b: buf = temp(1);
2 Kind: let b: buf = alloc("k", 6, 1);
2 Kind: let b: buf = alloc(6, "k", true);
2 Kind: let b: temp = temp(true);
3 Kind: let b: temp = temp(1);~put(b);
3 Kind: let s: slice = args();~set(s, 0, 1);
3 Kind: let b: temp = temp(1);~set(b, 0, true);
3 Kind: let b: temp = temp(1);~set8(b, "a", 0);
ok: let b: temp = temp(1);~set8(b, 0, 1);~copy(b, 0, "a");
3 Kind: let b: temp = temp(1);~copy(b, 0, 1);
3 Kind: let b: temp = temp(1);~copy(b, 0, b);
2 Kind: get("k", "k") { some s => { } none => { } }
2 Kind: get(5, 5) { some s => { } none => { } }
3 Kind: get(5, "k") { some s => {~s = 1; } none => { } }
ok: multiget(5, "k", 1) { some s => { resp(s); } none => { } }
2 Kind: multiget(5, "k", "k") { some s => { } none => { } }
2 Kind: multiget(5, 1, 1) { some s => { } none => { } }
ok: del(6, "k");~resp("k");
2 Kind: del(6, 1);
2 Kind: del("k", "k");
2 Kind: resp(1);
3 Kind: if true {~return "k"; }"#;

/// The same, behind `let b: temp = temp(1);`.
const OWNERSHIP: &str = r#"ok: set(b, 0, 1);~let c: temp = b;
3 Moved: let c: temp = b;~set(b, 0, 1);
3 Moved: let c: temp = b;~set8(b, 0, 1);
3 Moved: let c: temp = b;~copy(b, 0, view(b));
3 Moved: let c: temp = b;~resp(view(b));
3 Moved: let c: temp = b;~let d: temp = b;
3 Moved: let c: temp = b;~c = b;
3 Moved: let c: temp = b;~b = b;
3 Moved: let c: temp = b;~let n: int = take(b);
3 Moved: let c: temp = b;~let n: int = read(view(b), b);
3 Moved: let c: temp = b;~set(c, len(view(b)), 1);
3 Moved: let c: temp = b;~if true && 1 < 2 + len(sub("a", 0, byte(view(b), 0))) { }
3 Moved: let c: temp = b;~get(5, view(b)) { some s => { } none => { } }
3 Moved: let c: temp = b;~del(len(view(b)), "k");
3 Moved: let c: temp = b;~while len(view(b)) < 1 { }
3 Moved: let c: temp = b;~multiget(5, "k", len(view(b))) { some s => { } none => { } }
3 Moved: let c: buf = alloc(6, "k", 1); put(c);~put(c);
2 Moved: let n: int = both(b, b);
ok: let c: temp = temp(1);~let n: int = both(b, c);
ok: let c: temp = b;~b = temp(2);~set(b, 0, 1);
ok: b = b;~set(b, 0, 1);
ok: let c: temp = b;~b = c;~c = b;~set(c, 0, 1);
3 Moved: if true { let c: temp = b; }~set(b, 0, 1);
3 Moved: if true { } else { let c: temp = b; }~set(b, 0, 1);
3 Moved: if true { let c: temp = b; } else { let c: temp = b; }~set(b, 0, 1);
ok: if true { let c: temp = b; } else { set(b, 0, 1); let c: temp = b; }
ok: if true { let c: temp = b; return 1; }~set(b, 0, 1);
ok: if true { } else { let c: temp = b; return 1; }~set(b, 0, 1);
ok: if true { let c: temp = b; b = temp(1); }~set(b, 0, 1);
3 Moved: let c: temp = b; if true { b = temp(1); }~set(b, 0, 1);
ok: let c: temp = b; if true { b = temp(1); } else { b = temp(2); }~set(b, 0, 1);
3 Moved: if true { let c: temp = b; if true { return 1; } else { return 2; } }~set(b, 0, 1);
3 Moved: get(5, "k") { some s => { let c: temp = b; } none => { } }~set(b, 0, 1);
3 Moved: get(5, "k") { some s => { } none => { let c: temp = b; } }~set(b, 0, 1);
ok: get(5, "k") { some s => { let c: temp = b; return 1; } none => { set(b, 0, 1); } }~set(b, 0, 1);
2 Moved: while true {~let c: temp = b; }
ok: while true { let c: temp = b; return 1; }~set(b, 0, 1);
ok: while true { let c: temp = b; b = temp(1); }~set(b, 0, 1);
ok: while true { let c: temp = temp(1); let d: temp = c; }
ok: let c: temp = b;~while true { b = temp(1); let d: temp = b; }
3 Moved: let c: temp = b; while true { b = temp(1); }~set(b, 0, 1);
2 Moved: while true {~let c: temp = b;~set(b, 0, 1); }
2 Moved: while true {~let s: slice = view(b);~let c: temp = b; }
3 Moved: while true {~while true { let c: temp = b; } }
2 Moved: while true {~if true { let c: temp = b; } }
2 Moved: multiget(5, "k", 1) { some s => {~let c: temp = b; } none => { } }
2 Moved: multiget(5, "k", 1) { some s => { return 1; } none => {~let c: temp = b; } }
ok: multiget(5, "k", 1) { some s => { let c: temp = b; return 1; } none => { } }~set(b, 0, 1);
ok: if true { let c: temp = temp(1); let d: temp = c; }~let c: temp = temp(1);~set(c, 0, 1);
3 Frozen: let s: slice = view(b);~set(b, 0, 1);
3 Frozen: let s: slice = view(b);~set8(b, 0, 1);
3 Frozen: let s: slice = view(b);~copy(b, 0, "a");
3 Frozen: let s: slice = view(b);~b = temp(1);
3 Frozen: let s: slice = view(b);~b = b;
3 Frozen: let s: slice = view(b);~let c: temp = b;
3 Frozen: let s: slice = view(b);~let n: int = take(b);
3 Frozen: let s: slice = view(b);~let n: int = read(s, b);
3 Frozen: let c: buf = alloc(6, "k", 1); let s: slice = view(c);~put(c);
ok: let s: slice = view(b);~resp(s);~resp(view(b));
ok: if true { let s: slice = view(b); }~set(b, 0, 1);
ok: let c: temp = temp(1);~let s: slice = view(c);~set(b, 0, 1);
ok: let c: temp = temp(1);~let s: slice = view(b);~c = temp(2);
ok: let s: slice = sub(args(), len(view(b)), byte(view(b), 0));~set(b, 0, 1);
3 Frozen: let s: slice = sub(sub(view(b), 0, 1), 0, 1);~set(b, 0, 1);
4 Frozen: let s: slice = args();~if true { let u: slice = view(b); s = sub(u, 0, 1); }~set(b, 0, 1);
3 Frozen: let s: slice = args();~set(b, 0, 1);~s = view(b);
3 Frozen: let s: slice = args();~set(b, 0, 1);~if true { let u: slice = s; s = u; u = view(b); }
ok: let s: slice = args(); if true { let u: slice = view(b); s = "a"; u = s; }~set(b, 0, 1);
ok: if true { let s: slice = view(b); }~let s: slice = args();~set(b, 0, 1);
2 Frozen: copy(b, 0, view(b));
2 Frozen: copy(b, 0, sub(view(b), 0, 1));
ok: copy(b, len(view(b)), "a");~let c: temp = temp(1);~copy(b, 0, view(c));
3 Frozen: get(5, "k") { some s => { s = view(b);~set(b, 0, 1); } none => { } }
ok: get(5, view(b)) { some s => { set(b, 0, 1); } none => { set(b, 0, 1); } }
ok: get(5, "k") { some s => { s = view(b); } none => { set(b, 0, 1); } }~set(b, 0, 1);
3 Frozen: multiget(5, view(b), 1) { some s => {~set(b, 0, 1); } none => { } }
3 Frozen: multiget(5, sub(view(b), 0, 1), 1) { some s => { } none => {~set(b, 0, 1); } }
3 Frozen: multiget(5, view(b), 1) { some s => {~b = temp(1); } none => { } }
3 Frozen: multiget(5, view(b), 1) { some s => { while true {~if true { b = b; } } } none => { } }
ok: multiget(5, view(b), 1) { some s => { } none => { } }~set(b, 0, 1);
ok: multiget(5, "k", len(view(b))) { some s => { set(b, 0, 1); } none => { set(b, 0, 1); } }
4 Outlived: let s: slice = args();~let c: temp = temp(1);~s = view(c);
ok: let c: temp = temp(1);~let s: slice = args();~s = view(c);
3 Outlived: let s: slice = args();~if true { let c: temp = temp(1); s = sub(view(c), 0, 1); }
4 Outlived: let s: slice = args(); let c: temp = temp(1);~let u: slice = view(c);~s = sub(u, 0, 1);
3 Outlived: let s: slice = args();~let u: slice = s;~let c: temp = temp(1); s = view(c);
3 Outlived: get(5, "k") { some s => { let c: temp = temp(1);~s = view(c); } none => { } }
3 Frozen: let s: slice = args(); let c: temp = temp(1);~let d: temp = c;~s = view(c);
2 MoveAndBorrow: let n: int = read(view(b), b);
2 MoveAndBorrow: let n: int = told(b, view(b));
2 MoveAndBorrow: let n: int = read(sub(view(b), 0, 1), b);
2 MoveAndBorrow: let n: int = late(b, len(view(b)));
2 MoveAndBorrow: let n: int = told(b, sub("a", 0, 1 + byte(view(b), 0)));
ok: let n: int = soon(len(view(b)), b);
ok: let n: int = read(sub("a", len(view(b)), 0), b);
ok: let c: temp = temp(1); let n: int = read(view(c), b);~let m: int = told(c, "a");
ok: let c: temp = temp(1); let n: int = told(b, view(c));"#;

/// Functions that the statements call, on the line on which `main` begins.
const CALLED: &str = "fn take(b: temp) -> int { return 0; } \
    fn both(b: temp, c: temp) -> int { return 0; } \
    fn late(b: temp, n: int) -> int { return n; } \
    fn soon(n: int, b: temp) -> int { return n; } \
    fn read(s: slice, b: temp) -> int { return 0; } \
    fn told(b: temp, s: slice) -> int { return 0; } ";

/// What stands before and behind the lines of a case.
#[derive(Clone, Copy)]
struct Frame {
    called: &'static str,
    before: &'static str,
    behind: &'static str,
}

const WHOLE: Frame = Frame {
    called: "",
    before: "",
    behind: "",
};

const BEFORE_MAIN: Frame = Frame {
    called: "",
    before: "",
    behind: "fn main() -> int { return 0; }\n",
};

const IN_MAIN: Frame = Frame {
    called: CALLED,
    before: "fn main() -> int {\n",
    behind: "return 0; }\n",
};

const BEHIND_BUFFER: Frame = Frame {
    called: CALLED,
    before: "fn main() -> int { let b: temp = temp(1);\n",
    behind: "return 0; }\n",
};

fn text_of(alloc: Global, frame: Frame, lines: &str) -> Result<String, Fail> {
    let mut text = String::new(alloc);
    text.push_str(frame.called)?;
    text.push_str(frame.before)?;
    for line in lines.split('~') {
        text.push_str(line)?;
        text.push('\n')?;
    }
    text.push_str(frame.behind)?;
    Ok(text)
}

fn answer(alloc: Global, text: &str) -> Result<String, Fail> {
    match check_text(alloc, text.as_bytes()) {
        Ok(_) => Ok(format!(in alloc; "ok")?),
        Err(CheckFault::Refused { line, code }) => match code {
            Refusal::Syntax(code) => Ok(format!(in alloc; "{line} {code:?}")?),
            Refusal::Types(code) => Ok(format!(in alloc; "{line} {code:?}")?),
            Refusal::Borrows(code) => Ok(format!(in alloc; "{line} {code:?}")?),
        },
        Err(CheckFault::Memory) => Err(Fail::new("memory")),
    }
}

fn judge(rt: &impl Abort, alloc: Global, frame: Frame, cases: &str) -> Result<(), Fail> {
    for case in cases.lines() {
        let Some((want, lines)) = case.split_once(": ") else {
            return Err(Fail::new(case));
        };
        let text = text_of(alloc, frame, lines)?;
        let told = answer(alloc, text.as_str())?;
        assert_eq!(rt; told.as_str(), want, "{text}");
    }
    Ok(())
}

#[test]
fn programs_are_judged_by_the_rules(rt: HostRuntime) -> Result<(), Fail> {
    let alloc = rt.alloc();
    judge(&rt, alloc, WHOLE, PROGRAMS)?;
    judge(&rt, alloc, BEFORE_MAIN, FUNCTIONS)?;
    judge(&rt, alloc, IN_MAIN, TYPES)?;
    judge(&rt, alloc, BEHIND_BUFFER, OWNERSHIP)
}

/// A program of 4,004 items: of its 4,000 lines behind the first, `last` is the last one.
fn long_text(alloc: Global, last: &str) -> Result<String, Fail> {
    let mut text = String::from_str(alloc, "fn main()->int{let x:int=0;\n")?;
    for _ in 1..4_000 {
        text.push_str("x=1;")?;
    }
    text.push_str("\n")?;
    text.push_str(last)?;
    text.push_str("return x;}\n")?;
    Ok(text)
}

#[test]
fn a_program_of_thousands_of_items_is_judged(rt: HostRuntime) -> Result<(), Fail> {
    let alloc = rt.alloc();
    for (last, wanted) in [("x=1;", "ok"), ("y=1;", "3 NoName"), ("x=true;", "3 Kind")] {
        let text = long_text(alloc, last)?;
        assert_eq!(rt; answer(alloc, text.as_str())?.as_str(), wanted);
    }
    Ok(())
}
