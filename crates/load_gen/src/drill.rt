ghost use Rattle.std.specs.Prelude.{◌≡◌, ◌≤◌, IfOk};
ghost use Rattle.sched_text.specs.Fits.{IsScript};
ghost use Rattle.load_gen.specs.Drill.{next_number, key_byte, begun_with, drill_head, drill_script};

use sched_text::{Event, Head, Rows, Script};
use sp_base::{
    Asked, Blob, CallNo, ExtNo, Level, MOST_ENTRIES, Memory, Policy, Rights, TableId, TenantId,
};
use std::alloc::Global;

/// The most calls of a drill.
pub const MOST_CALLS: u32 = 10_000;

/// The extension of a drill: it counts how often it was called with its argument.
const COUNTER: &[u8] =
    b"fn main() -> int { let n: int = 0; get(6, args()) { some s => { n = u64(s, 0); } none => { } } let b: buf = alloc(6, args(), 8); set8(b, 0, n + 1); put(b); return n + 1; }\n";

/// The one tenant of a drill.
const TENANT: TenantId = TenantId(1);

/// The generator's number behind this one.
fn next_number(x: u64) -> u64
    ensures { result ≡ next_number x }
{
    x.wrapping_mul(6_364_136_223_846_793_005)
        .wrapping_add(1_442_695_040_888_963_407)
}

/// The byte of a call's key: six bits of a number.
fn key_byte(x: u64) -> u8
    ensures { result ≡ key_byte x }
{
    (x / (1 << 33) % 64) as u8
}

/// Call `i` joins its queue; `x` is the generator's number for it.
fn call_begun(alloc: Global, i: u32, x: u64) -> Result<Event, Memory>
    requires { i ≤ 10000 }
    ensures { IfOk result (λ event. event ≡ begun_with i x) }
{
    let args = Blob::from_vec(vec![in alloc; key_byte(x)]?);
    let asked = Asked {
        caller: i + 1,
        number: CallNo(1),
        ext: ExtNo(0),
        budget: 100,
        push_ok: i % 2 == 1,
        args,
    };
    Ok(Event::Begin {
        worker: i % 4,
        tenant: TENANT,
        asked,
    })
}

/// The head of a drill.
fn head(alloc: Global) -> Result<Head, Memory>
    ensures { IfOk result (λ head. head ≡ drill_head) }
{
    let rights = Rights::of(vec![in alloc; (TableId(6), Level::Write)]?);
    Ok(Head {
        tenants: Rows::from_vec(vec![in alloc; (TENANT, 1)]?),
        rights: Rows::from_vec(vec![in alloc; (TENANT, rights)]?),
        policy: Policy { high: 8, least: 18 },
        limit: MOST_ENTRIES,
        workers: 4,
    })
}

/// The script of a drill with so many calls, on keys that the seed chooses.
#[tactic(auto, unfolding(crate::specs::Drill::drill_script))]
pub fn script_of(alloc: Global, count: u32, seed: u64) -> Result<Script, Memory>
    requires { count ≤ MOST_CALLS }
    ensures script { IfOk result (λ script. script ≡ drill_script count seed) }
    ensures fits { IfOk result IsScript }
{
    let head = head(alloc)?;
    let mut events = Rows::new(alloc);
    let text = Blob::of(alloc, COUNTER)?;
    events.push((
        5,
        Event::Ext {
            tenant: TENANT,
            text,
        },
    ))?;
    let mut x = seed;
    for i in 0..count {
        x = next_number(x);
        events.push((7 + 2 * i, call_begun(alloc, i, x)?))?;
        let turn = Event::Turn {
            worker: i % 4,
            quantum: 1000,
        };
        events.push((8 + 2 * i, turn))?;
    }
    Ok(Script { head, events })
}
