//! Threads that take the list in turn.
ghost use Rattle.std.specs.Prelude.{◌+◌, ◌*◌, ◌^◌, ◌<◌};
ghost use Rattle.hub_tests.specs.Ready.{IsReady};

use crate::numbers::Numbers;
use hub::{Hub, Pass};
use std::sync::Wait;
use std::thread::{Threads, join};

/// Takes the list, appends a number and gives the list back, for each of `count` numbers from `from` on. It stops where
/// memory runs out.
pub fn append_each<R: Wait>(
    rt: &R,
    hub: &Hub<Numbers>,
    pass: Pass<Numbers>,
    from: u64,
    count: u64,
) -> Pass<Numbers>
    requires ready { IsReady hub.now pass }
    requires fits { from + count < 2 ^ 64 }
    ensures { IsReady hub.now result }
{
    let mut pass = pass;
    for number in from..from + count {
        let mut numbers = hub.take(rt, &mut pass);
        let pushed = numbers.items.push(number).is_ok();
        hub.give(&mut pass, numbers);
        if !pushed {
            break;
        }
    }
    pass
}

/// The same by two threads, each of which appends `count` numbers.
pub fn append_by_two<R: Threads + Wait + Sync>(
    rt: &R,
    hub: &Hub<Numbers>,
    pass: Pass<Numbers>,
    from: u64,
    count: u64,
) -> Pass<Numbers>
    requires ready { IsReady hub.now pass }
    requires fits { from + 2 * count < 2 ^ 64 }
    ensures { IsReady hub.now result }
{
    let mut pass = pass;
    let other = hub.split(&mut pass);
    let behind = from + 1 * count;
    let (mut one, two) = join(
        rt,
        || -> Pass<Numbers>
            requires ready { IsReady hub.now pass }
            requires fits { from + count < 2 ^ 64 }
            ensures { IsReady hub.entry.now result }
        { append_each(rt, hub, pass, from, count) },
        || -> Pass<Numbers>
            requires ready { IsReady hub.now other }
            requires fits { behind + count < 2 ^ 64 }
            ensures { IsReady hub.entry.now result }
        { append_each(rt, hub, other, behind, count) },
    );
    hub.join(&mut one, two);
    one
}

/// The same by four threads.
pub fn append_by_four<R: Threads + Wait + Sync>(
    rt: &R,
    hub: &Hub<Numbers>,
    pass: Pass<Numbers>,
    from: u64,
    count: u64,
) -> Pass<Numbers>
    requires ready { IsReady hub.now pass }
    requires fits { from + 4 * count < 2 ^ 64 }
    ensures { IsReady hub.now result }
{
    let mut pass = pass;
    let other = hub.split(&mut pass);
    let behind = from + 2 * count;
    let (mut one, two) = join(
        rt,
        || -> Pass<Numbers>
            requires ready { IsReady hub.now pass }
            requires fits { from + 2 * count < 2 ^ 64 }
            ensures { IsReady hub.entry.now result }
        { append_by_two(rt, hub, pass, from, count) },
        || -> Pass<Numbers>
            requires ready { IsReady hub.now other }
            requires fits { behind + 2 * count < 2 ^ 64 }
            ensures { IsReady hub.entry.now result }
        { append_by_two(rt, hub, other, behind, count) },
    );
    hub.join(&mut one, two);
    one
}

/// The same by eight threads.
pub fn append_by_eight<R: Threads + Wait + Sync>(
    rt: &R,
    hub: &Hub<Numbers>,
    pass: Pass<Numbers>,
    from: u64,
    count: u64,
) -> Pass<Numbers>
    requires ready { IsReady hub.now pass }
    requires fits { from + 8 * count < 2 ^ 64 }
    ensures { IsReady hub.now result }
{
    let mut pass = pass;
    let other = hub.split(&mut pass);
    let behind = from + 4 * count;
    let (mut one, two) = join(
        rt,
        || -> Pass<Numbers>
            requires ready { IsReady hub.now pass }
            requires fits { from + 4 * count < 2 ^ 64 }
            ensures { IsReady hub.entry.now result }
        { append_by_four(rt, hub, pass, from, count) },
        || -> Pass<Numbers>
            requires ready { IsReady hub.now other }
            requires fits { behind + 4 * count < 2 ^ 64 }
            ensures { IsReady hub.entry.now result }
        { append_by_four(rt, hub, other, behind, count) },
    );
    hub.join(&mut one, two);
    one
}
