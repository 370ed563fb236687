use sched_text::{LineCode, ScriptFault, read_script};
use std::alloc::Global;
use std::test::Fail;

/// A byte, so many times.
fn times(alloc: Global, byte: u8, count: usize) -> Result<Vec<u8>, Fail> {
    let mut bytes = Vec::new(alloc);
    for _ in 0..count {
        bytes.push(byte)?;
    }
    Ok(bytes)
}

/// A byte field of so many zero bytes.
fn zeros(alloc: Global, count: usize) -> Result<String, Fail> {
    let mut text = String::new(alloc);
    text.push_str("x")?;
    for _ in 0..count {
        text.push_str("00")?;
    }
    Ok(text)
}

/// The first bad line, with its code.
fn bad_line(alloc: Global, text: &[u8]) -> Result<Option<(u32, LineCode)>, Fail> {
    match read_script(alloc, text) {
        Ok(_) => Ok(None),
        Err(ScriptFault::BadLine { line, code }) => Ok(Some((line, code))),
        Err(ScriptFault::Memory) => Err("out of memory")?,
    }
}

#[test]
fn bytes_and_lines(rt: HostRuntime) -> Result<(), Fail> {
    let alloc = rt.alloc();
    let mut text = times(alloc, b'#', 4_194_304)?;
    assert_eq!(rt; bad_line(alloc, text.as_slice())?, None);
    text.push(b'#')?;
    assert_eq!(rt;
        bad_line(alloc, text.as_slice())?,
        Some((0, LineCode::Long))
    );
    let mut text = times(alloc, b'\n', 65_536)?;
    assert_eq!(rt; bad_line(alloc, text.as_slice())?, None);
    text.push(b'#')?;
    assert_eq!(rt;
        bad_line(alloc, text.as_slice())?,
        Some((65_537, LineCode::Many))
    );
    Ok(())
}

#[test]
fn a_text_that_passes_the_last_line(rt: HostRuntime) -> Result<(), Fail> {
    let alloc = rt.alloc();
    let mut text = times(alloc, b'\n', 65_532)?;
    text.extend_from_slice(b"tenant 1 7\next 1 2\n\n\n")?;
    assert_eq!(rt; bad_line(alloc, text.as_slice())?, None);
    text.push(b'\n')?;
    assert_eq!(rt;
        bad_line(alloc, text.as_slice())?,
        Some((65_537, LineCode::Many))
    );
    let mut text = times(alloc, b'\n', 65_533)?;
    text.extend_from_slice(b"tenant 1 7\next 1 3\n\n\n")?;
    assert_eq!(rt;
        bad_line(alloc, text.as_slice())?,
        Some((65_535, LineCode::Text))
    );
    text.push(b'\n')?;
    assert_eq!(rt;
        bad_line(alloc, text.as_slice())?,
        Some((65_537, LineCode::Many))
    );
    Ok(())
}

#[test]
fn tenants_and_tables(rt: HostRuntime) -> Result<(), Fail> {
    let alloc = rt.alloc();
    let mut text = String::new(alloc);
    for tenant in 0..1024u32 {
        text.push_str(format!(in alloc; "tenant {tenant} 1\n")?.as_str())?;
    }
    for table in 0..64u32 {
        text.push_str(format!(in alloc; "table {table} 9 read\n")?.as_str())?;
    }
    assert_eq!(rt; bad_line(alloc, text.as_bytes())?, None);
    let more = format!(in alloc; "{text}table 64 9 read")?;
    assert_eq!(rt;
        bad_line(alloc, more.as_bytes())?,
        Some((1089, LineCode::Many))
    );
    let more = format!(in alloc; "{text}table 63 9 read")?;
    assert_eq!(rt;
        bad_line(alloc, more.as_bytes())?,
        Some((1089, LineCode::Twice))
    );
    let more = format!(in alloc; "{text}tenant 1024 1")?;
    assert_eq!(rt;
        bad_line(alloc, more.as_bytes())?,
        Some((1089, LineCode::Many))
    );
    let more = format!(in alloc; "{text}tenant 1023 1")?;
    assert_eq!(rt;
        bad_line(alloc, more.as_bytes())?,
        Some((1089, LineCode::Twice))
    );
    Ok(())
}

#[test]
fn keys_values_and_arguments(rt: HostRuntime) -> Result<(), Fail> {
    let alloc = rt.alloc();
    let cases = [
        (64, 4096, 1024, None),
        (65, 0, 0, Some((2, LineCode::Field))),
        (1, 4097, 0, Some((2, LineCode::Field))),
        (1, 0, 1025, Some((3, LineCode::Field))),
    ];
    for (key, value, args, bad) in cases {
        let key = zeros(alloc, key)?;
        let value = zeros(alloc, value)?;
        let args = zeros(alloc, args)?;
        let text = format!(in alloc;
            "tenant 1 7\nput 1 5 {key} {value}\nbegin 0 1 1 1 0 1 stay {args}"
        )?;
        assert_eq!(rt; bad_line(alloc, text.as_bytes())?, bad);
    }
    Ok(())
}

#[test]
fn many_lines_are_read(rt: HostRuntime) -> Result<(), Fail> {
    let alloc = rt.alloc();
    let mut text = String::new(alloc);
    for tenant in 0..1024u32 {
        text.push_str(format!(in alloc; "tenant {tenant} 1\n")?.as_str())?;
    }
    for line in 0..64_512u32 {
        let tenant = 1023 - line % 16;
        text.push_str(format!(in alloc;
            "put {tenant} 5 x6b6b6b6b6b6b6b6b x00000000000000000000\n"
        )?.as_str())?;
    }
    match read_script(alloc, text.as_bytes()) {
        Ok(script) => assert_eq!(rt; script.events.len(), 64_512),
        Err(fault) => assert_eq!(rt; fault, ScriptFault::Memory),
    }
    Ok(())
}
