ghost use Rattle.std.specs.Prelude.{IfOk};
ghost use Rattle.hub_tests.specs.Ready.{IsReady};

use crate::numbers::Numbers;
use crate::workers::{append_by_eight, append_by_two};
use hub::{Hub, Pass};
use sp_base::Memory;
use std::alloc::Global;
use std::test::Fail;

// A hub of an empty list.
fn found_empty(alloc: Global) -> Result<(Hub<Numbers>, Pass<Numbers>), Memory>
    ensures { IfOk result (λ r. IsReady r.0 r.1) }
{
    let empty = Numbers {
        items: Vec::new(alloc),
    };
    match Hub::found(alloc, empty) {
        Ok(founded) => Ok(founded),
        Err((Memory, _)) => Err(Memory),
    }
}

// Whether these are the numbers below `threads * count`, where those of each thread, `count` in a row, stand in their order.
fn are_in_turn(numbers: &[u64], threads: u64, count: u64) -> bool {
    for thread in 0..threads {
        let first = thread.wrapping_mul(count);
        let end = first.wrapping_add(count);
        let mut next = first;
        for number in numbers {
            if first <= *number && *number < end {
                if *number != next {
                    return false;
                }
                next = next.wrapping_add(1);
            }
        }
        if next != end {
            return false;
        }
    }
    numbers.len() as u64 == threads.wrapping_mul(count)
}

#[test]
fn two_threads_append_a_hundred_numbers_each(rt: HostRuntime) -> Result<(), Fail> {
    let (hub, pass) = found_empty(rt.alloc())?;
    let pass = append_by_two(&rt, &hub, pass, 0, 100);
    let numbers = hub.close(&rt, pass);
    assert!(rt; are_in_turn(numbers.items.as_slice(), 2, 100));
    Ok(())
}

#[test]
fn eight_threads_append_a_thousand_numbers_each(rt: HostRuntime) -> Result<(), Fail> {
    let (hub, pass) = found_empty(rt.alloc())?;
    let pass = append_by_eight(&rt, &hub, pass, 0, 1000);
    let numbers = hub.close(&rt, pass);
    assert!(rt; are_in_turn(numbers.items.as_slice(), 8, 1000));
    Ok(())
}

#[test]
fn the_load_counts_the_passes_inside(rt: HostRuntime) -> Result<(), Fail> {
    let (hub, mut watcher) = found_empty(rt.alloc())?;
    let mut one = hub.split(&mut watcher);
    let mut other = hub.split(&mut watcher);
    let mut loads = [hub.load(&mut watcher); 9];
    loads[1] = hub.enter(&mut one);
    loads[2] = hub.load(&mut watcher);
    loads[3] = hub.enter(&mut other);
    loads[4] = hub.load(&mut watcher);
    loads[5] = hub.leave(&mut one);
    loads[6] = hub.load(&mut watcher);
    loads[7] = hub.leave(&mut other);
    loads[8] = hub.load(&mut watcher);
    assert!(rt; loads == [0, 1, 1, 2, 2, 1, 1, 0, 0]);
    Ok(())
}

#[test]
fn close_gives_back_what_was_given_last(rt: HostRuntime) -> Result<(), Fail> {
    let (hub, mut pass) = found_empty(rt.alloc())?;
    let mut other = hub.split(&mut pass);
    let mut numbers = hub.take(&rt, &mut other);
    numbers.items.push(7)?;
    hub.give(&mut other, numbers);
    let numbers = hub.take(&rt, &mut pass);
    hub.give(&mut pass, numbers);
    let length = hub.length(&mut pass);
    hub.join(&mut pass, other);
    let numbers = hub.close(&rt, pass);
    assert!(rt; length == 1);
    assert!(rt; numbers.items.as_slice() == [7].as_slice());
    Ok(())
}
