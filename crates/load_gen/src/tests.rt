use crate::script_of;
use sched_text::Event;
use std::test::Fail;

/// The keys of the first two calls with seed 0, as the generator's numbers 1 and 2 give them.
#[test]
fn the_first_keys_of_seed_zero(rt: HostRuntime) -> Result<(), Fail> {
    let script = script_of(rt.alloc(), 2, 0)?;
    let [_, (first_line, first), _, (second_line, second), _] = script.events.as_slice() else {
        return Err("five events")?;
    };
    assert_eq!(rt; *first_line, 7);
    assert_eq!(rt; *second_line, 9);
    let Event::Begin { asked, .. } = first else {
        return Err("a call")?;
    };
    assert_eq!(rt; asked.args.bytes(), [0x3f].as_slice());
    let Event::Begin { asked, .. } = second else {
        return Err("a call")?;
    };
    assert_eq!(rt; asked.args.bytes(), [0x08].as_slice());
    Ok(())
}

#[test]
fn the_largest_drill(rt: HostRuntime) -> Result<(), Fail> {
    let script = script_of(rt.alloc(), 10_000, u64::MAX)?;
    assert_eq!(rt; script.events.len(), 20_001);
    Ok(())
}
