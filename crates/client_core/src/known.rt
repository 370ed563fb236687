//! How a client carries a pushed call: what it makes of each answer, by what it knows.

ghost use Rattle.std.specs.Prelude.{◌≡◌, ◌++◌, ◌∷◌, [], Some, IfOk, OnErr, OnOk};
ghost use Rattle.std.specs.Arc.{arc_value};
ghost use Rattle.client_core.specs.Finishing.{IsSayable};
ghost use Rattle.client_core.specs.Hearing.{HearsFor, HearsGiven, HearsText, Leads, answers_heard, end_heard, ended_heard, fetch_heard, record_heard};
ghost use Rattle.client_core.specs.Talking.{Known as KnownValue, after_run, carries, ends, fault, finishing, knowing, program_in, pushed_reads, running, starts};

use crate::answered::{CallAnswer, CallAnswers};
use crate::later::{CallList, Later};
use crate::next::Next;
use crate::programs::Programs;
use crate::stage::{Awaited, Carried, Stage};
use crate::turns::{are_in_turn, pushed};
use ext_check::{CheckFault, check_text};
use ext_eval::eval;
use ext_mean::{Program, Run};
use sp_base::{Blob, ExtNo, Key, Memory, Outcome, ReadItem, Rights, TableId, Writes};
use std::alloc::Global;
use std::marker::Model;
use std::sync::Arc;
use wire::{Answer, FetchAnswer, Item, Request, TextAnswer};

/// What is said next, with where the talk then stands.
pub type Said = (Next, Stage);

/// What a client knows: its rights, and the programs of the extensions that it was given.
#[derive(Drop)]
pub struct Known {
    alloc: Global,
    rights: Rights,
    programs: Programs,
}

impl Model for Known {
    ghost use Rattle.client_core.specs.Talking.{Known};
    ghost use Rattle.std.specs.Coded.{codes};
    ghost use Rattle.ext_mean.specs.contracts.statement.Block as block;

    ghost Value = { Known };

    ghost coded = { Prim.hlevel (codes, block.the_row.coded) };

    ghost view = { λ k. record { rights = k.rights; programs = k.programs } };
}

/// The peer is at fault.
fn fault() -> Said
    ensures { result ≡ fault }
{
    (Next::PeerFault, Stage::Over)
}

/// Sends how the call ended.
fn finishing(carried: Carried, outcome: Outcome, writes: Writes) -> Said
    ensures { result ≡ finishing carried outcome writes }
{
    let caller = carried.call.caller.number;
    let number = carried.call.number;
    let finish = Request::Finish {
        caller,
        number,
        outcome,
        writes,
    };
    let awaited = Awaited::TheEnd;
    (Next::Send(finish), Stage::Carries { carried, awaited })
}

/// Fetches a record that the call wants.
fn fetching(alloc: Global, carried: Carried, table: TableId, key: Key) -> Result<Said, Memory>
    ensures { IfOk result (λ said. said ≡ after_run carried (Run.Wants table key 0)) }
{
    let caller = carried.call.caller.number;
    let number = carried.call.number;
    let fetch = Request::Fetch {
        caller,
        number,
        table,
        key: key.share(alloc)?,
    };
    let awaited = Awaited::TheRecord { table, key };
    Ok((Next::Send(fetch), Stage::Carries { carried, awaited }))
}

impl Known {
    /// The rights of a Welcome, and no extensions.
    pub fn new(alloc: Global, rights: Rights) -> Known
        ensures { result ≡ record { rights = rights; programs = [] } }
    {
        Known {
            alloc,
            rights,
            programs: Programs::new(alloc),
        }
    }

    /// Keeps the program of an extension with its number. Without memory nothing changes.
    pub fn know(&mut self, number: ExtNo, program: Arc<Program>) -> Result<(), Memory>
        ensures ok { OnOk result (self.new ≡ knowing self.old number (arc_value program)) }
        ensures err { OnErr result (self.new ≡ self.old) }
    {
        self.programs.add(number, program)
    }

    /// Runs a call from its arguments, with its whole budget, on the records that were given for it.
    fn run(&self, carried: Carried, program: &Program) -> Result<Said, Memory>
        requires { program_in self.now.programs carried.call.ext ≡ Some program.now }
        ensures says { IfOk result (λ said. said ≡ running self.now.rights carried program.now) }
        ensures sayable { IfOk result (λ said. IsSayable self.now said) }
    {
        let call = &carried.call;
        let args = call.args.bytes();
        let reads = carried.reads.as_slice();
        match eval(self.alloc, program, args, call.budget, &self.rights, reads)? {
            Run::Wants { table, key, .. } => fetching(self.alloc, carried, table, key),
            Run::Done { reply, writes, .. } => Ok(finishing(carried, Outcome::Done(reply), writes)),
            Run::Trapped { trap, .. } => {
                let none = Writes::new(self.alloc);
                Ok(finishing(carried, Outcome::Trapped(trap), none))
            }
            Run::Spent => Ok(finishing(carried, Outcome::Killed, Writes::new(self.alloc))),
        }
    }

    /// Runs a call where its extension was given, else asks for the text of it.
    fn start(&self, carried: Carried) -> Result<Said, Memory>
        ensures says { IfOk result (λ said. said ≡ starts self.now carried) }
        ensures sayable { IfOk result (λ said. IsSayable self.now said) }
    {
        let ext = carried.call.ext;
        match self.programs.get(ext) {
            Some(given) => self.run(carried, given.program()),
            None => {
                let awaited = Awaited::TheText;
                Ok((
                    Next::Send(Request::TextOf { ext }),
                    Stage::Carries { carried, awaited },
                ))
            }
        }
    }

    /// Looks at the calls that are left, up to the next one that was pushed.
    fn carry_on(&self, mut answered: CallAnswers, mut later: Later) -> Result<Said, Memory>
        ensures says { IfOk result (λ said. said ≡ carries self.now answered later) }
        ensures sayable { IfOk result (λ said. IsSayable self.now said) }
    {
        while let Some((call, item)) = later.pop() {
            match pushed(item) {
                Ok(reads) => {
                    return self.start(Carried {
                        answered,
                        call,
                        reads,
                        later,
                    });
                }
                Err(item) => answered.push(CallAnswer { item, away: false })?,
            }
        }
        Ok((Next::Answered(answered), Stage::Idle))
    }

    /// The carried call has ended so.
    fn end(&self, carried: Carried, item: Item) -> Result<Said, Memory>
        ensures says { IfOk result (λ said. said ≡ ends self.now carried item) }
        ensures sayable { IfOk result (λ said. IsSayable self.now said) }
    {
        let Carried {
            mut answered,
            later,
            ..
        } = carried;
        answered.push(CallAnswer { item, away: true })?;
        self.carry_on(answered, later)
    }

    /// Hears the answer to a batch.
    pub fn hear_answers(&self, calls: CallList, answer: Answer) -> Result<Said, Memory>
        ensures says { IfOk result (λ said. said ≡ answers_heard self.now calls answer) }
        ensures sayable { IfOk result (λ said. IsSayable self.now said) }
    {
        let Answer::Answers { items } = answer else {
            return Ok(fault());
        };
        if !are_in_turn(calls.as_slice(), items.as_slice()) {
            return Ok(fault());
        }
        self.carry_on(CallAnswers::new(self.alloc), calls.with_items(items))
    }

    /// Hears an answer for a call that is carried.
    pub fn hear_for(
        &mut self,
        carried: Carried,
        awaited: Awaited,
        answer: Answer,
    ) -> Result<Said, Memory>
        ensures hears { IfOk result (λ said. HearsFor self.old carried awaited answer said self.new) }
        ensures sayable { IfOk result (λ said. IsSayable self.new said) }
    {
        match awaited {
            Awaited::TheText => self.hear_text(carried, answer),
            Awaited::TheRecord { table, key } => self.hear_fetch(carried, table, key, answer),
            Awaited::TheEnd => self.hear_end(carried, answer),
        }
    }

    /// Hears the answer to TextOf.
    fn hear_text(&mut self, carried: Carried, answer: Answer) -> Result<Said, Memory>
        ensures hears { IfOk result (λ said. HearsText self.old carried answer said self.new) }
        ensures sayable { IfOk result (λ said. IsSayable self.new said) }
    {
        match answer {
            Answer::Text(TextAnswer::Text(text)) => self.take_text(carried, &text),
            Answer::Text(TextAnswer::NoExtension { count, at }) => {
                self.end(carried, Item::NoExtension { count, at })
            }
            Answer::Text(TextAnswer::Memory) => self.end(carried, Item::Memory),
            _ => Ok(fault()),
        }
    }

    /// Keeps the program of a text that was asked for, and runs its call.
    fn take_text(&mut self, carried: Carried, text: &Blob) -> Result<Said, Memory>
        ensures hears { IfOk result (λ said. HearsGiven self.old carried (TextAnswer.Text text.now) said self.new) }
        ensures sayable { IfOk result (λ said. IsSayable self.new said) }
    {
        match check_text(self.alloc, text.bytes()) {
            Ok(program) => {
                let program = Arc::new(self.alloc, program)?;
                self.know(carried.call.ext, program)?;
                self.start(carried)
            }
            Err(CheckFault::Refused { .. }) => Ok(fault()),
            Err(CheckFault::Memory) => Err(Memory),
        }
    }

    /// Hears the answer to a Fetch.
    fn hear_fetch(
        &self,
        carried: Carried,
        table: TableId,
        key: Key,
        answer: Answer,
    ) -> Result<Said, Memory>
        ensures says { IfOk result (λ said. said ≡ fetch_heard self.now carried table key answer) }
        ensures sayable { IfOk result (λ said. IsSayable self.now said) }
    {
        let Answer::Fetched(found) = answer else {
            return Ok(fault());
        };
        match found {
            FetchAnswer::Found {
                version,
                read_at,
                value,
            } => self.give(
                carried,
                ReadItem {
                    table,
                    key,
                    version,
                    read_at,
                    value,
                },
            ),
            FetchAnswer::NotParked => self.end(carried, Item::NotParked),
            FetchAnswer::Memory => self.end(carried, Item::Memory),
            FetchAnswer::Denied | FetchAnswer::Many => Ok(fault()),
        }
    }

    /// A record that was fetched joins the reads, and the call starts again on all of them.
    fn give(&self, mut carried: Carried, read: ReadItem) -> Result<Said, Memory>
        ensures says { IfOk result (λ said. said ≡ starts self.now (record carried { reads = carried.reads ++ read ∷ [] })) }
        ensures sayable { IfOk result (λ said. IsSayable self.now said) }
    {
        carried.reads.push(read)?;
        self.start(carried)
    }

    /// Hears the answer to a Finish.
    fn hear_end(&self, carried: Carried, answer: Answer) -> Result<Said, Memory>
        ensures says { IfOk result (λ said. said ≡ end_heard self.now carried answer) }
        ensures sayable { IfOk result (λ said. IsSayable self.now said) }
    {
        let Answer::Finished { item } = answer else {
            return Ok(fault());
        };
        match pushed(item) {
            Ok(_) => Ok(fault()),
            Err(item) => self.end(carried, item),
        }
    }
}
