//! Cases run by the plain evaluator and by the machine: whole, in quanta of a few units, and with a pause
//! behind each unit.

use super::machine::Case;
use super::records::known;
use super::telling::told;
use super::texts::parts;
use ext_mean::Run;
use std::alloc::Global;
use std::process::Abort;
use std::test::Fail;

/// The run of a case on the records that are known, which is alike by both.
pub fn run(
    rt: &impl Abort,
    alloc: Global,
    line: &str,
    args: &[u8],
    budget: u32,
) -> Result<Run, Fail> {
    let case = Case::of(alloc, line, args, budget)?;
    let wanted = case.by_evaluator(alloc)?;
    for quantum in [budget, 7, 1] {
        let said = case.by_machine(alloc, quantum)?;
        assert_eq!(rt; said.as_str(), wanted.as_str(), "{line}, {quantum}");
    }
    case.run(alloc, known(alloc)?.as_slice())
}

/// Runs a case, and compares what is told of the run.
pub fn expect(
    rt: &impl Abort,
    alloc: Global,
    line: &str,
    args: &[u8],
    budget: u32,
    wanted: &str,
) -> Result<(), Fail> {
    let run = run(rt, alloc, line, args, budget)?;
    let told = told(alloc, &run)?;
    assert_eq!(rt; told.as_str(), wanted, "{line}");
    Ok(())
}

/// Runs the case of each line without arguments.
pub fn expect_all(rt: &impl Abort, alloc: Global, lines: &str) -> Result<(), Fail> {
    for line in lines.lines() {
        let (case, wanted) = parts(line)?;
        expect(rt, alloc, case, b"", 1000, wanted)?;
    }
    Ok(())
}

/// Runs a case with the arguments and the budget of each line.
pub fn expect_runs(rt: &impl Abort, alloc: Global, case: &str, lines: &str) -> Result<(), Fail> {
    for line in lines.lines() {
        let (given, wanted) = parts(line)?;
        let Some((args, budget)) = given.split_once(' ') else {
            return Err(Fail::new("no case"));
        };
        let budget = budget.parse::<u32>()?;
        expect(rt, alloc, case, args.as_bytes(), budget, wanted)?;
    }
    Ok(())
}
