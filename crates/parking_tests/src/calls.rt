//! Calls that are drawn, of four extensions of a tenant.

ghost use Rattle.std.specs.Prelude.{◌≡◌, ◌≤◌, IfOk, false, length};
ghost use Rattle.std.specs.List.{AllByRecursion};
ghost use Rattle.sp_base.specs.Limits.{IsArguments};
ghost use Rattle.sp_base.specs.declared.calls.Call.{Call};

use crate::books::{TABLE, TENANT, empty, install};
use crate::dice::Dice;
use book::Book;
use sp_base::{Blob, Call, CallNo, Caller, ExtNo, Level, Rights};
use std::alloc::Global;
use std::test::Fail;

/// Counts under its arguments, and replies the count before.
const COUNT: &str = "fn main() -> int { let n: int = 0; \
get(6, args()) { some s => { n = u64(s, 0); } none => { } } \
let b: buf = alloc(6, args(), 8); set8(b, 0, n + 1); put(b); resp(args()); return n; }\n";

/// Divides `a` by `b`.
const RATIO: &str = "fn main() -> int { let n: int = 0; let m: int = 0; \
get(6, \"a\") { some s => { n = u64(s, 0); } none => { } } \
get(6, \"b\") { some s => { m = u64(s, 0); } none => { } } resp(args()); return n / m; }\n";

/// Adds the record under its arguments to `c`, and replies what stood there.
const POUR: &str = "fn main() -> int { let n: int = 0; let m: int = 0; \
get(6, args()) { some s => { n = u64(s, 0); } none => { } } \
get(6, \"c\") { some s => { m = u64(s, 0); } none => { } } \
let b: buf = alloc(6, \"c\", 8); set8(b, 0, n + m); put(b); resp(args()); return m; }\n";

/// Deletes the record under its arguments, and replies what stood there.
const TAKE: &str = "fn main() -> int { let n: int = 0; \
get(6, args()) { some s => { n = u64(s, 0); } none => { } } \
del(6, args()); resp(args()); return n; }\n";

/// How many entries the journal has before the first call.
pub const INSTALLED: u64 = 4;

/// A book of these extensions; table 6 may be written.
pub fn four(alloc: Global) -> Result<Book, Fail>
    ensures { IfOk result (λ book. book.audit ≡ false) }
{
    let rights = vec![in alloc; (TABLE, Level::Write)]?;
    let mut book = empty(alloc, Rights::of(rights), 10_000)?;
    install(alloc, &mut book, COUNT)?;
    install(alloc, &mut book, RATIO)?;
    install(alloc, &mut book, POUR)?;
    install(alloc, &mut book, TAKE)?;
    Ok(book)
}

/// A call of tenant 1 with a key as its arguments. A tight budget pays for one read and no more: a call is killed behind it.
#[derive(Clone, Copy, Debug, PartialEq, Eq)]
pub struct Drawn {
    pub caller: u32,
    pub number: u64,
    pub ext: u32,
    pub is_tight: bool,
    pub push_ok: bool,
    pub key: u8,
}

impl Drawn {
    /// A call with this number: of one of eight callers, mostly with ample budget and free to be handed back.
    pub fn next(dice: &mut Dice, number: u64) -> Drawn {
        Drawn {
            caller: dice.below(8) as u32,
            number,
            ext: dice.below(4) as u32,
            is_tight: dice.below(8) == 0,
            push_ok: dice.below(4) != 0,
            key: b'a' + dice.below(3) as u8,
        }
    }

    pub fn budget(&self) -> u32 {
        if self.is_tight { 19 } else { 100 }
    }

    /// Whether the call may read the record under a key.
    pub fn may_read(&self, name: u8) -> bool {
        match self.ext {
            1 => name == b'a' || name == b'b',
            2 => name == self.key || name == b'c',
            _ => name == self.key,
        }
    }

    fn call(&self, alloc: Global) -> Result<Call, Fail>
        ensures sized { IfOk result (λ call. IsArguments call.args) }
        ensures own { IfOk result (λ call. call.caller.tenant ≡ TENANT) }
    {
        Ok(Call {
            caller: Caller {
                tenant: TENANT,
                number: self.caller,
            },
            number: CallNo(self.number),
            ext: ExtNo(self.ext),
            budget: self.budget(),
            push_ok: self.push_ok,
            args: Blob::of(alloc, &[self.key])?,
        })
    }
}

/// From one to four calls with this number.
pub fn draw_batch(alloc: Global, dice: &mut Dice, number: u64) -> Result<Vec<Drawn>, Fail>
    ensures some { IfOk result (λ all. 1 ≤ length all.items) }
    ensures few { IfOk result (λ all. length all.items ≤ 4) }
{
    let mut all = vec![in alloc;
        Drawn::next(dice, number),
        Drawn::next(dice, number),
        Drawn::next(dice, number),
        Drawn::next(dice, number),
    ]?;
    all.truncate(dice.below(4) as usize + 1);
    Ok(all)
}

/// The calls that are drawn.
pub fn calls_of(alloc: Global, all: &[Drawn]) -> Result<Vec<Call>, Fail>
    ensures length { IfOk result (λ calls. length calls.items ≡ length all.now) }
    ensures sized { IfOk result (λ calls. AllByRecursion (λ (call : Call). IsArguments call.args) calls.items) }
    ensures own { IfOk result (λ calls. AllByRecursion (λ (call : Call). call.caller.tenant ≡ TENANT) calls.items) }
{
    let mut calls = Vec::new(alloc);
    for one in all {
        calls.push(one.call(alloc)?)?;
    }
    Ok(calls)
}
