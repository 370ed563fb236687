use sched_text::{CallItem, LineCode, ScriptFault, read_calls};
use std::alloc::Global;
use std::test::Fail;

/// The first bad line, with its code.
fn bad_line(alloc: Global, text: &[u8]) -> Result<Option<(u32, LineCode)>, Fail> {
    match read_calls(alloc, text) {
        Ok(_) => Ok(None),
        Err(ScriptFault::BadLine { line, code }) => Ok(Some((line, code))),
        Err(ScriptFault::Memory) => Err("out of memory")?,
    }
}

#[test]
fn lines_of_calls(rt: HostRuntime) -> Result<(), Fail> {
    let cases: &[(&[u8], Option<(u32, LineCode)>)] = &[
        (b"", None),
        (b"install 1\nfn\nput 5 x6b x\n", None),
        (b"batch 1\ninvoke 0 0 0 0 push x", None),
        (
            b"batch 2\n\n# one\ninvoke 1 2 3 4 stay x\n\ninvoke 4294967295 18446744073709551615 4294967295 4294967295 stay x00",
            None,
        ),
        (b"batch 64", Some((1, LineCode::Text))),
        (b"batch 65", Some((1, LineCode::Field))),
        (b"batch 0", Some((1, LineCode::Field))),
        (b"install 0", Some((1, LineCode::Field))),
        (b"install 1\nfn", Some((1, LineCode::Text))),
        (b"put 1 5 x6b x", Some((1, LineCode::Count))),
        (b"put 5 x x", Some((1, LineCode::Field))),
        (b"tenant 1 7", Some((1, LineCode::Word))),
        (b"invoke 1 1 0 100 stay x", Some((1, LineCode::Word))),
        (b"batch 1\nput 5 x6b x", Some((2, LineCode::Word))),
        (b"batch 2\nfoo", Some((1, LineCode::Text))),
        (b"batch 2\nfoo\nfoo", Some((2, LineCode::Word))),
        (
            b"batch 1\ninvoke 1 1 0 100 stay x\ninvoke 1 1 0 100 stay x",
            Some((3, LineCode::Word)),
        ),
        (
            b"batch 1\ninvoke 1 1 0 4294967296 stay x",
            Some((2, LineCode::Field)),
        ),
    ];
    for (case, bad) in cases {
        assert_eq!(rt; bad_line(rt.alloc(), case)?, *bad);
    }
    Ok(())
}

#[test]
fn a_text_of_too_many_bytes(rt: HostRuntime) -> Result<(), Fail> {
    let alloc = rt.alloc();
    let mut text = b"install 1\n".to_vec(alloc)?;
    for _ in 0..16_383 {
        text.push(b'#')?;
    }
    let mut longer = text.as_slice().to_vec(alloc)?;
    text.push(b'\n')?;
    longer.extend_from_slice(b"#\n")?;
    assert_eq!(rt; bad_line(alloc, text.as_slice())?, None);
    assert_eq!(rt;
        bad_line(alloc, longer.as_slice())?,
        Some((1, LineCode::Text))
    );
    Ok(())
}

#[test]
fn calls_are_read_whole(rt: HostRuntime) -> Result<(), Fail> {
    let alloc = rt.alloc();
    let text = b"\nbatch 2\ninvoke 7 1 0 100 push x6b\n#\ninvoke 8 2 1 50 stay x\ninstall 1\nfn\n";
    let Ok(script) = read_calls(alloc, text) else {
        return Err("no script")?;
    };
    let [
        (first, CallItem::Batch { calls }),
        (second, CallItem::Install { text }),
    ] = script.items.as_slice()
    else {
        return Err("two items")?;
    };
    assert_eq!(rt; *first, 2);
    assert_eq!(rt; *second, 6);
    assert_eq!(rt; text.bytes(), b"fn\n".as_slice());
    let [(one, push), (other, stay)] = calls.as_slice() else {
        return Err("two calls")?;
    };
    assert_eq!(rt; *one, 3);
    assert_eq!(rt; *other, 5);
    assert_eq!(rt; push.caller, 7);
    assert_eq!(rt; push.push_ok, true);
    assert_eq!(rt; stay.caller, 8);
    assert_eq!(rt; stay.budget, 50);
    Ok(())
}
