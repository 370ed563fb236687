//! Runs that have ended, beside what was worked out.

use crate::bodies::Body;
use crate::cases::{Case, End};
use crate::turns::run;
use rw_set::Finished;
use sp_base::{Change, Outcome, ReadItem, Write};
use std::alloc::Global;
use std::process::Abort;
use std::test::Fail;
use task::{PlainTask, Task};

/// Whether the reads are of these keys of the case's table, in this order.
fn reads_agree(case: &Case, reads: &[ReadItem]) -> bool {
    for (k, read) in reads.iter().enumerate() {
        let Some((name, _)) = case.wants.get(k) else {
            return false;
        };
        if read.table.0 != case.table || read.key.bytes() != *name {
            return false;
        }
    }
    reads.len() == case.wants.len()
}

/// Whether the run ended so.
fn ends_agree(end: &End, outcome: &Outcome) -> bool {
    match outcome {
        Outcome::Done(reply) => match end {
            End::Done(code, bytes) => reply.code == *code && reply.bytes.bytes() == *bytes,
            _ => false,
        },
        Outcome::Trapped(trap) => match end {
            End::Trapped(number) => *trap as u8 == *number,
            _ => false,
        },
        Outcome::Killed => matches!(end, End::Killed),
    }
}

/// Whether a write puts this value under this key.
fn puts(write: &Write, table: u32, key: &[u8], value: &[u8]) -> bool {
    match &write.change {
        Change::Put(bytes) => {
            write.table.0 == table && write.key.bytes() == key && bytes.bytes() == value
        }
        Change::Del => false,
    }
}

/// Whether the writes are the one of the case, or none.
fn writes_agree(case: &Case, writes: &[Write]) -> bool {
    match case.puts {
        None => writes.is_empty(),
        Some((key, value)) => match writes {
            [only] => puts(only, case.table, key, value),
            _ => false,
        },
    }
}

/// Runs a case in turns of one quantum, and holds its reads, its end and its writes to those worked out.
pub fn plays<B: Body>(
    rt: &impl Abort,
    alloc: Global,
    case: &Case,
    quantum: u32,
) -> Result<(), Fail> {
    if quantum == 0 {
        return Err(Fail::new("no quantum"));
    }
    let done: Finished = run::<B>(rt, alloc, case, quantum)?;
    assert!(rt; reads_agree(case, done.reads.items()));
    assert!(rt; ends_agree(&case.ends, &done.outcome));
    assert!(rt; writes_agree(case, done.writes.as_slice()));
    Ok(())
}

/// The case by both bodies, in turns of each size.
pub fn plays_in_all_sizes(rt: &impl Abort, alloc: Global, case: &Case) -> Result<(), Fail> {
    for quantum in [1, 2, 3, 7, 16, 17, case.budget] {
        plays::<Task>(rt, alloc, case, quantum)?;
        plays::<PlainTask>(rt, alloc, case, quantum)?;
    }
    Ok(())
}
