//! Cases run to their ends in turns of one quantum, by either body. Each turn is held to the case.

ghost use Rattle.std.specs.Prelude.{◌≡◌, ◌<◌, IfOk};
ghost use Rattle.task.specs.declared.phase.Phase.TheVariants.{Ready};

use crate::bodies::Body;
use crate::cases::{Case, call, extension, record, rights};
use rw_set::Finished;
use std::alloc::Global;
use std::process::Abort;
use std::test::Fail;
use task::Turned;

/// The task of a case, with nothing spent.
fn begun<B: Body>(alloc: Global, case: &Case) -> Result<B, Fail>
    ensures { IfOk result (λ task. (B.live task).phase ≡ Ready) }
{
    let ext = extension(alloc, case.text)?;
    let call = call(alloc, case.budget, case.args)?;
    let rights = rights(alloc, case.table)?;
    B::start(alloc, call, ext, rights)
}

/// Whether a turn that goes on is as worked out: a quantum more is spent, and the end is not reached.
fn goes_on(case: &Case, before: u32, quantum: u32, spent: u32) -> bool {
    spent < case.units && u64::from(spent) == u64::from(before) + u64::from(quantum)
}

/// Whether the end is reached within a turn.
fn ends(case: &Case, before: u32, quantum: u32) -> bool {
    before < case.units && case.units - before <= quantum
}

/// The run of a case in turns of one quantum, of which it has at most one for each unit of its budget.
pub fn run<B: Body>(
    rt: &impl Abort,
    alloc: Global,
    case: &Case,
    quantum: u32,
) -> Result<Finished, Fail>
    requires { 0 < quantum }
{
    let mut task: B = begun(alloc, case)?;
    let mut reads = 0;
    for _turn in 0..case.budget {
        let before = task.units();
        match task.pass(quantum) {
            Turned::Ran => assert!(rt; goes_on(case, before, quantum, task.units())),
            Turned::Wants { table, key } => {
                let Some((name, spent)) = case.wants.get(reads) else {
                    return Err(Fail::new("one read too many"));
                };
                assert_eq!(rt; task.units(), *spent);
                assert_eq!(rt; key.bytes(), *name);
                reads += 1;
                task.feed(record(alloc, case.held, table, &key)?)?;
            }
            Turned::Ended => {
                assert!(rt; ends(case, before, quantum));
                return Ok(task.end());
            }
            Turned::Memory => return Err(Fail::new("memory")),
        }
    }
    Err(Fail::new("no end"))
}
