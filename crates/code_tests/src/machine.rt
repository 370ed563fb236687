//! Runs by the plain evaluator, and by the machine in quanta: line by line each read that a run wants, and
//! its end.

ghost use Rattle.std.specs.Prelude.{IfOk};
ghost use Rattle.gen_code.specs.Does.{IsOfProgram};

use super::records::{known_at, rights};
use super::telling::push_run;
use super::texts::{program_of, text_of};
use ext_eval::eval;
use ext_mean::{Program, Run};
use gen_code::Code;
use gen_compile::compile;
use gen_vm::{Gen, Paused};
use sp_base::{Blob, Outcome, ReadItem, Writes};
use std::alloc::Global;
use std::test::Fail;

/// A program and its code, with arguments and a budget.
#[derive(Drop)]
pub struct Case {
    program: Program,
    pub code: Code,
    args: Blob,
    pub budget: u32,
}

/// A run that has ended, as the evaluator tells it.
fn run_of(outcome: Outcome, writes: Writes, used: u32) -> Run {
    match outcome {
        Outcome::Done(reply) => Run::Done {
            reply,
            writes,
            used,
        },
        Outcome::Trapped(trap) => Run::Trapped { trap, used },
        Outcome::Killed => Run::Spent,
    }
}

/// The record that a run wants, where it is known.
fn wanted(alloc: Global, run: &Run) -> Result<Option<ReadItem>, Fail> {
    match run {
        Run::Wants { table, key, .. } => known_at(alloc, *table, key),
        _ => Ok(None),
    }
}

impl Case {
    /// A case by its line.
    pub fn of(alloc: Global, line: &str, args: &[u8], budget: u32) -> Result<Case, Fail>
        ensures { IfOk result (λ case. IsOfProgram case.code) }
    {
        let text = text_of(alloc, line)?;
        let program = program_of(alloc, text.as_str())?;
        let code = compile(alloc, &program)?;
        let args = Blob::of(alloc, args)?;
        Ok(Case {
            program,
            code,
            args,
            budget,
        })
    }

    /// The run by the evaluator on these reads.
    pub fn run(&self, alloc: Global, reads: &[ReadItem]) -> Result<Run, Fail> {
        let rights = rights(alloc)?;
        let args = self.args.bytes();
        Ok(eval(alloc, &self.program, args, self.budget, &rights, reads)?)
    }

    /// By the evaluator, which begins anew with each read that it wanted.
    pub fn by_evaluator(&self, alloc: Global) -> Result<String, Fail> {
        let mut said = String::new(alloc);
        let mut reads = Vec::new(alloc);
        for _ in 0..=self.budget {
            let run = self.run(alloc, reads.as_slice())?;
            push_run(alloc, &mut said, &run)?;
            match wanted(alloc, &run)? {
                Some(read) => reads.push(read)?,
                None => return Ok(said),
            }
        }
        Err(Fail::new("no end"))
    }

    /// By the machine, with a pause behind each so many units and at each read.
    pub fn by_machine(&self, alloc: Global, quantum: u32) -> Result<String, Fail>
        requires { IsOfProgram self.now.code }
    {
        let args = self.args.share(alloc)?;
        let mut machine = Gen::start(alloc, &self.code, args, self.budget, rights(alloc)?)?;
        let mut said = String::new(alloc);
        let mut limit = quantum.min(self.budget);
        'pauses: for _ in 0..u64::from(self.budget) * 2 + 2 {
            let paused = machine.resume(&self.code, limit);
            let used = machine.used();
            let end = match paused {
                Paused::Out => {
                    if limit < self.budget {
                        limit += quantum.min(self.budget - limit);
                        continue 'pauses;
                    }
                    Run::Spent
                }
                Paused::Wants { table, key } => {
                    let read = known_at(alloc, table, &key)?;
                    let wants = Run::Wants { table, key, used };
                    if let Some(ReadItem { value, .. }) = read {
                        push_run(alloc, &mut said, &wants)?;
                        machine.feed(value);
                        continue 'pauses;
                    }
                    wants
                }
                Paused::Ended => {
                    let (outcome, writes) = machine.outcome();
                    run_of(outcome, writes, used)
                }
                Paused::Memory => return Err(Fail::new("no memory")),
            };
            push_run(alloc, &mut said, &end)?;
            return Ok(said);
        }
        Err(Fail::new("no end"))
    }
}
