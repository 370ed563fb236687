use sched_text::{LineCode, ScriptFault, read_script, read_setup};
use std::alloc::Global;
use std::test::Fail;

/// The lines before those of each case.
const HEAD: &[u8] = b"tenant 1 7\ntable 5 1 write\nworkers 2\n";

/// The first bad line behind the head, from 1, with its code.
fn bad_line(alloc: Global, lines: &[u8]) -> Result<Option<(u32, LineCode)>, Fail> {
    let mut text = HEAD.to_vec(alloc)?;
    text.extend_from_slice(lines)?;
    match read_script(alloc, text.as_slice()) {
        Ok(_) => Ok(None),
        Err(ScriptFault::BadLine { line, code }) => Ok(Some((line.saturating_sub(3), code))),
        Err(ScriptFault::Memory) => Err("out of memory")?,
    }
}

#[test]
fn good_lines(rt: HostRuntime) -> Result<(), Fail> {
    let cases: &[&[u8]] = &[
        b"",
        b"\n",
        b"#",
        b"# tenant\n\n",
        b"tenant 4294967295 18446744073709551615",
        b"tenant 0 0\n",
        b"table 0 1 read\ntable 4294967295 1 write",
        b"policy 0 0",
        b"policy 4294967295 100000",
        b"limit 1",
        b"limit 1048576",
        b"put 1 5 x00 x\n",
        b"put 1 9 xff x00ff",
        b"ext 1 1\nfn\n",
        b"ext 1 2\n\n\n",
        b"begin 0 1 0 1 0 1 stay x",
        b"begin 1 1 4294967295 18446744073709551615 4294967295 100000 stay x00",
        b"begin 0 1 1 1 0 1 push x",
        b"turn 0 1",
        b"turn 1 10000",
        b"steal 0 1\nsteal 1 1",
        b"away 1 0\naway 1 4294967295",
        b"cut 1 0\ncut 1 4294967295",
    ];
    for case in cases {
        assert_eq!(rt; bad_line(rt.alloc(), case)?, None);
    }
    Ok(())
}

#[test]
fn words_counts_and_fields(rt: HostRuntime) -> Result<(), Fail> {
    let cases: &[(&[u8], LineCode)] = &[
        (b"foo 1 2", LineCode::Word),
        (b" tenant 2 1", LineCode::Word),
        (b"Tenant 2 1", LineCode::Word),
        (b"install 1", LineCode::Word),
        (b"foo", LineCode::Word),
        (b"tenant 2", LineCode::Count),
        (b"tenant 2 1 1", LineCode::Count),
        (b"tenant  2 1", LineCode::Count),
        (b"turn 0 1 ", LineCode::Count),
        (b"turn x", LineCode::Count),
        (b"policy 1", LineCode::Count),
        (b"policy 1 1 1", LineCode::Count),
        (b"away 1", LineCode::Count),
        (b"cut 1 1 1", LineCode::Count),
        (b"begin 0 1 1 1 0 1 stay", LineCode::Count),
        (b"begin 0 1 1 1 0 1 stay x x x x", LineCode::Count),
        (b"tenant 02 1", LineCode::Field),
        (b"tenant +2 1", LineCode::Field),
        (b"tenant  1", LineCode::Field),
        (b"tenant 4294967296 1", LineCode::Field),
        (b"tenant 2 18446744073709551616", LineCode::Field),
        (b"table 5 1 Read", LineCode::Field),
        (b"table 4294967296 1 read", LineCode::Field),
        (b"policy 1 100001", LineCode::Field),
        (b"policy 4294967296 1", LineCode::Field),
        (b"policy 01 1", LineCode::Field),
        (b"limit 0", LineCode::Field),
        (b"limit 1048577", LineCode::Field),
        (b"workers 0", LineCode::Field),
        (b"workers 65", LineCode::Field),
        (b"put 1 5 x x", LineCode::Field),
        (b"put 1 5 x6B x", LineCode::Field),
        (b"put 1 5 x6 x", LineCode::Field),
        (b"put 1 5 6b x", LineCode::Field),
        (b"put 1 5 x6b ", LineCode::Field),
        (b"ext 1 0", LineCode::Field),
        (b"ext 1 16385", LineCode::Field),
        (b"begin 0 1 1 0 0 1 stay x", LineCode::Field),
        (b"begin 0 1 1 1 0 0 stay x", LineCode::Field),
        (b"begin 0 1 1 1 0 100001 stay x", LineCode::Field),
        (b"begin 0 1 1 1 0 1 Stay x", LineCode::Field),
        (b"begin 0 1 1 1 0 1 pushed x", LineCode::Field),
        (b"away 1 4294967296", LineCode::Field),
        (b"cut 4294967296 1", LineCode::Field),
        (b"begin 4294967296 1 1 1 0 1 stay x", LineCode::Field),
        (b"turn 0 0", LineCode::Field),
        (b"turn 0 10001", LineCode::Field),
        (b"turn 0 5\r", LineCode::Field),
    ];
    for (case, code) in cases {
        assert_eq!(rt; bad_line(rt.alloc(), case)?, Some((1, *code)));
    }
    Ok(())
}

#[test]
fn lines_behind_others(rt: HostRuntime) -> Result<(), Fail> {
    let cases: &[(&[u8], u32, LineCode)] = &[
        (b"turn 0 1\ntenant 2 1", 2, LineCode::Order),
        (b"tenant 1 8", 1, LineCode::Twice),
        (b"table 5 1 read", 1, LineCode::Twice),
        (b"workers 2", 1, LineCode::Twice),
        (b"limit 3\nlimit 3", 2, LineCode::Twice),
        (b"policy 1 1\npolicy 1 1", 2, LineCode::Twice),
        (b"table 6 2 read", 1, LineCode::NoTenant),
        (b"put 2 5 x6b x", 1, LineCode::NoTenant),
        (b"turn 2 1", 1, LineCode::NoWorker),
        (b"steal 0 2", 1, LineCode::NoWorker),
        (b"steal 2 0", 1, LineCode::NoWorker),
        (b"ext 1 1", 1, LineCode::Text),
        (b"ext 1 1\n", 1, LineCode::Text),
        (b"ext 1 1\nfn", 1, LineCode::Text),
        (b"ext 1 3\na\nb\n", 1, LineCode::Text),
        // Of two codes the earlier one.
        (b"turn 0 1\ntenant 01 1", 2, LineCode::Field),
        (b"turn 0 1\ntenant 1 1", 2, LineCode::Order),
        (b"turn 0 1\ntable 5 9 read", 2, LineCode::Order),
        (b"turn 0 1\npolicy 1 1", 2, LineCode::Order),
        (b"begin 9 9 1 1 0 1 stay x", 1, LineCode::NoTenant),
        (b"ext 2 9", 1, LineCode::NoTenant),
        (b"away 9 1", 1, LineCode::NoTenant),
        (b"cut 9 1", 1, LineCode::NoTenant),
        (b"away 9 01", 1, LineCode::Field),
        (b"begin 9 1 1 1 0 1 push x", 1, LineCode::NoWorker),
        // Of two lines the earlier one, and the lines of a text are none of the script's.
        (b"turn 0 0\nfoo", 1, LineCode::Field),
        (b"\n# foo\n\nturn 0 0", 4, LineCode::Field),
        (b"ext 1 2\nfoo\nturn 0 0\nsteal 0 0\nfoo", 5, LineCode::Word),
    ];
    for (case, line, code) in cases {
        assert_eq!(rt; bad_line(rt.alloc(), case)?, Some((*line, *code)));
    }
    Ok(())
}

#[test]
fn a_set_up_has_no_calls(rt: HostRuntime) -> Result<(), Fail> {
    let alloc = rt.alloc();
    let cases: &[(&[u8], Option<LineCode>)] = &[
        (b"tenant 1 7\n", None),
        (b"limit 5\n", None),
        (b"workers 1", Some(LineCode::Word)),
        (b"begin 0 1 1 1 0 1 stay x", Some(LineCode::Word)),
        (b"turn 0 1", Some(LineCode::Word)),
        (b"steal 0 0", Some(LineCode::Word)),
        (b"away 1 1", Some(LineCode::Word)),
        (b"cut 1 1", Some(LineCode::Word)),
        (b"put 1 5 x6b x", Some(LineCode::NoTenant)),
    ];
    for (case, code) in cases {
        let found = match read_setup(alloc, case) {
            Err(ScriptFault::BadLine { line: 1, code }) => Some(code),
            _ => None,
        };
        assert_eq!(rt; found, *code);
    }
    Ok(())
}
