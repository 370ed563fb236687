//! Lines with two faults: the first code of the table is told, whatever field is faulty first.

use sched_text::{LineCode, ScriptFault, read_script};
use std::alloc::Global;
use std::test::Fail;

/// The lines before those of each case.
const HEAD: &[u8] = b"tenant 1 7\ntable 5 1 write\nworkers 2\n";

/// The codes in their order, each with lines of which the last has this code and a later one.
const PAIRS: &[(LineCode, &[&[u8]])] = &[
    (
        LineCode::Count,
        &[
            b"tenant 02",
            b"turn 0 1\ntenant 2",
            b"tenant 1",
            b"table 6 9",
            b"steal 9",
            b"ext 1",
        ],
    ),
    (
        LineCode::Field,
        &[
            b"turn 0 1\nlimit 0",
            b"tenant 1 08",
            b"workers 65",
            b"table 6 9 Read",
            b"put 9 5 x x",
            b"turn 9 0",
            b"steal 9 01",
            b"begin 9 1 1 0 0 1 stay x",
            b"ext 1 0",
            b"ext 9 16385",
        ],
    ),
    (
        LineCode::Order,
        &[
            b"turn 0 1\ntenant 1 1",
            b"turn 0 1\nworkers 1",
            b"turn 0 1\ntable 5 1 read",
            b"turn 0 1\ntable 6 9 read",
        ],
    ),
    (
        LineCode::NoTenant,
        &[b"begin 9 9 1 1 0 1 stay x", b"ext 9 1"],
    ),
];

/// The code of the last line behind the head.
fn last_code(alloc: Global, lines: &[u8]) -> Result<Option<LineCode>, Fail> {
    let mut text = HEAD.to_vec(alloc)?;
    text.extend_from_slice(lines)?;
    let count = text.as_slice().split(|byte| *byte == b'\n').count();
    match read_script(alloc, text.as_slice()) {
        Err(ScriptFault::BadLine { line, code }) if line as usize == count => Ok(Some(code)),
        _ => Ok(None),
    }
}

#[test]
fn of_two_codes_of_a_line_the_earlier_is_told(rt: HostRuntime) -> Result<(), Fail> {
    for (code, cases) in PAIRS {
        for lines in cases.iter() {
            assert_eq!(rt; last_code(rt.alloc(), lines)?, Some(*code), "{lines:?}");
        }
    }
    Ok(())
}
