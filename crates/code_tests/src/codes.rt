//! The code of each form, worked out by hand from the rules: the statements of `main`, or a whole program
//! that begins with `fn`, and then what its code is.

use super::shown::shown;
use super::texts::{code_of, parts, text_of};
use std::test::Fail;

/// Every instruction stands here at least once. Jumps are numbered from the function's first instruction.
const CODES: &str = r#"return 0; => 0 0 Charge(1) Num(0) Return Num(0) Return
let n: int = 7; return n; => 0 1 Charge(1) Num(7) Store(0) Charge(1) Move(0) Return Drop(0) Num(0) Return
let s: slice = "hi"; return len(s); => 0 1 Charge(1) Str(Blob { bytes: [104, 105] }) Store(0) Charge(1) Load(0) Len Return Drop(0) Num(0) Return
return byte(args(), 1) + u64(sub(args(), 2, 9), 3); => 0 0 Charge(1) Args Num(1) Byte Args Num(2) Num(9) Sub Num(3) Word Add Return Num(0) Return
let b: temp = temp(8); set(b, 1, 2); set8(b, 3, 4); copy(b, 5, "x"); resp(view(b)); return 0; => 0 1 Charge(1) Num(8) Temp Store(0) Charge(1) Num(1) Num(2) Set(0) Charge(1) Num(3) Num(4) Set8(0) Charge(1) Num(5) Str(Blob { bytes: [120] }) Copy(0) Charge(1) View(0) Resp Charge(1) Num(0) Return Drop(0) Num(0) Return
let b: buf = alloc(6, "k", 8); put(b); del(6, "k"); return 0; => 0 1 Charge(1) Num(6) Str(Blob { bytes: [107] }) Num(8) Alloc Store(0) Charge(1) Put(0) Charge(1) Num(6) Str(Blob { bytes: [107] }) Del Charge(1) Num(0) Return Drop(0) Num(0) Return
let t: bool = 1 - 2 == 3 * 4; return 5 / 6 % 7; => 0 1 Charge(1) Num(1) Num(2) Minus Num(3) Num(4) Times EqInt Store(0) Charge(1) Num(5) Num(6) Over Num(7) Rest Return Drop(0) Num(0) Return
let t: bool = (1 < 2) == (3 <= 4); let u: bool = (1 > 2) != (3 >= 4); return 0; => 0 2 Charge(1) Num(1) Num(2) Less Num(3) Num(4) LessEq EqBool Store(0) Charge(1) Num(1) Num(2) LessEq Not Num(3) Num(4) Less Not EqBool Not Store(1) Charge(1) Num(0) Return Drop(0) Num(0) Return
let s: slice = args(); let t: bool = s == "a"; return 0; => 0 2 Charge(1) Args Store(0) Charge(1) Load(0) Str(Blob { bytes: [97] }) EqSlice Store(1) Charge(1) Num(0) Return Drop(0) Num(0) Return
let t: bool = true && false; return 0; => 0 1 Charge(1) Truth(true) JumpFalse(7) Truth(false) Not Not Jump(8) Truth(false) Store(0) Charge(1) Num(0) Return Drop(0) Num(0) Return
let t: bool = true || false; return 0; => 0 1 Charge(1) Truth(true) JumpFalse(5) Truth(true) Jump(8) Truth(false) Not Not Store(0) Charge(1) Num(0) Return Drop(0) Num(0) Return
let n: int = 1; if n == 1 { n = 2; } else { let m: int = 3; n = m; } return n; => 0 2 Charge(1) Num(1) Store(0) Charge(1) Load(0) Num(1) EqInt JumpFalse(12) Charge(1) Num(2) Store(0) Jump(19) Charge(1) Num(3) Store(1) Charge(1) Load(1) Store(0) Drop(1) Charge(1) Move(0) Return Drop(0) Num(0) Return
let i: int = 0; while i < 3 { i = i + 1; } return i; => 0 1 Charge(1) Num(0) Store(0) Charge(1) Charge(1) Load(0) Num(3) Less JumpFalse(15) Charge(1) Load(0) Num(1) Add Store(0) Jump(4) Charge(1) Move(0) Return Drop(0) Num(0) Return
get(5, "k") { some s => { resp(s); } none => { let n: int = 1; } } return 0; => 0 2 Charge(1) Num(5) Str(Blob { bytes: [107] }) Get(10) Store(0) Charge(1) Load(0) Resp Drop(0) Jump(14) Charge(1) Num(1) Store(0) Drop(0) Charge(1) Num(0) Return Num(0) Return
multiget(5, "ab", 1) { some s => { resp(s); } none => { } } return 0; => 0 1 Charge(1) Num(5) Str(Blob { bytes: [97, 98] }) Num(1) Num(0) Multi(16) JumpFalse(13) Store(0) Charge(1) Load(0) Resp Drop(0) Jump(5) Store(0) Drop(0) Jump(5) Charge(1) Num(0) Return Num(0) Return
fn f(n: int, t: bool) -> int { return n; } fn g() -> int { return 1; } fn main() -> int { let x: int = f(7, !true); let y: int = g(); return y; } => 2 2 Charge(1) Move(0) Return Num(0) Return | 0 0 Charge(1) Num(1) Return Num(0) Return | 0 2 Charge(1) Num(7) Truth(true) Not Call(0) Store(0) Charge(1) Call(1) Store(1) Charge(1) Move(1) Return Drop(0) Num(0) Return"#;

#[test]
fn each_form_has_its_instructions(rt: HostRuntime) -> Result<(), Fail> {
    let alloc = rt.alloc();
    for line in CODES.lines() {
        let (case, wanted) = parts(line)?;
        let text = text_of(alloc, case)?;
        let code = code_of(alloc, text.as_str())?;
        let shown = shown(alloc, &code)?;
        assert_eq!(rt; shown.as_str(), wanted, "{case}");
    }
    Ok(())
}
