ghost use Rattle.std.specs.Prelude.{◌≡◌, ◌≢◌, ◌≤◌, IfOk, OnErr, OnOk};
ghost use Rattle.ext_mean.specs.declared.tree.Program.{Program};
ghost use Rattle.ext_mean.specs.Meaning.{mean};
ghost use Rattle.ext_mean.specs.Views.{part};
ghost use Rattle.gen_code.specs.Does.{Does, IsOfProgram};
ghost use Rattle.gen_code.specs.declared.code.Code.{Code as CodeValue};
ghost use Rattle.gen_code.specs.Machine.{begin};
ghost use Rattle.gen_vm.specs.Answers.{GoesTo, IsAnswer, Pauses, Resumes, Tells};
ghost use Rattle.gen_vm.specs.Places.{here_of};
ghost use Rattle.gen_vm.specs.Running.{HasEnded, IsWaiting, begun, fed_with};
ghost use Rattle.gen_vm.specs.Standing.{Stands};

use crate::doing::Doing;
use crate::halt::Halt;
use crate::here::Here;
use crate::paused::Paused;
use crate::phase::Phase;
use crate::slots::Slots;
use crate::stack::Stack;
use crate::stepping::run;
use crate::world::World;
use ext_mean::Run;
use gen_code::Code;
use sp_base::{Blob, Key, Memory, Outcome, ReadItem, Rights, TableId, Writes};
use std::alloc::Global;
use std::marker::Model;
use std::mem;

/// A run of the code of an extension, which pauses and goes on. Contracts see where it stands.
#[derive(Drop)]
pub struct Gen {
    alloc: Global,
    args: Blob,
    budget: u32,
    rights: Rights,
    /// The records fed. While the run waits there is room for one more.
    fed: Vec<ReadItem>,
    here: Here,
    phase: Phase,
}

impl Model for Gen {
    ghost use Rattle.gen_vm.specs.Running.{Running};

    ghost Value = { Running };

    ghost use Rattle.std.specs.Prelude.{◌<◌, vec_capacity, vec_len};
    ghost use Rattle.gen_vm.specs.Places.{here_of};
    ghost use Rattle.gen_vm.specs.Running.{IsWaiting};

    ghost view = { λ g. record {
      args = g.args;
      budget = g.budget;
      rights = g.rights;
      fed = g.fed.items;
      here = here_of g.here;
      phase = g.phase;
    } };

    ghost invariant = { λ g. IsWaiting g.phase → vec_len g.fed < vec_capacity g.fed };
}

/// The first place of a run: the first instruction of the last function, which is `main`.
fn beginning(alloc: Global, code: &Code) -> Here
    ensures { here_of result ≡ begin code.now }
{
    Here {
        function: code.functions.len().saturating_sub(1),
        pc: 0,
        slots: Slots::new(alloc),
        stack: Stack::new(alloc),
        frames: Vec::new(alloc),
        doing: Doing::Working,
        used: 0,
        reply: Vec::new(alloc),
        writes: Vec::new(alloc),
    }
}

impl Gen {
    /// A run of the code of a program, which has not used any units.
    pub fn start(
        alloc: Global,
        code: &Code,
        args: Blob,
        budget: u32,
        rights: Rights,
    ) -> Result<Gen, Memory>
        requires { IsOfProgram code.now }
        ensures begun { IfOk result (λ run. run ≡ begun code.now args budget rights) }
        ensures stands { IfOk result (λ run. Stands code.now run) }
    {
        Ok(Gen {
            alloc,
            args,
            budget,
            rights,
            fed: Vec::new(alloc),
            here: beginning(alloc, code),
            phase: Phase::Ready,
        })
    }

    /// Goes on with a limit, which counts the units from the beginning: until the run wants a record, the
    /// next charge passes the limit, or the run ends. What ran before is not done again.
    pub fn resume(&mut self, code: &Code, limit: u32) -> Paused
        requires ready { self.old.phase ≡ Phase.Ready }
        requires stands { Stands code.now self.old }
        requires used { self.old.here.used ≤ limit }
        requires budget { limit ≤ self.old.budget }
        // The answer is what any program that the code does means with this limit on the records fed.
        ensures answer { (program : Program) → Does code.now program
            → IsAnswer result self.new (mean program self.old.args limit (part self.old.fed self.old.rights)) }
        ensures told { Tells result self.new.phase }
        // What was handed in stays, units are only added, and never past the limit.
        ensures resumes { Resumes limit self.old self.new }
        // Unless the run has ended it may go on from where it stands, which its instructions led to: where
        // there was no memory, up to the one that found none.
        ensures stands { result ≢ Paused.Ended → Stands code.now self.new }
        ensures goes { result ≢ Paused.Ended → GoesTo code.now limit self.old self.new.here }
    {
        let world = World {
            alloc: self.alloc,
            args: self.args.bytes(),
            limit,
            rights: &self.rights,
            fed: self.fed.as_slice(),
        };
        let halt = run(&mut self.here, &world, code);
        match halt {
            Halt::Memory => Paused::Memory,
            Halt::Ended(run) => self.pause(run),
        }
    }

    /// How a run that stopped goes on.
    fn pause(&mut self, run: Run) -> Paused
        requires { self.old.phase ≡ Phase.Ready }
        ensures { Pauses run result self.old self.new }
    {
        match run {
            Run::Wants { table, key, .. } => match self.wait(table, key) {
                Ok(key) => Paused::Wants { table, key },
                Err(Memory) => Paused::Memory,
            },
            Run::Spent => Paused::Out,
            Run::Trapped { trap, .. } => {
                let writes = Writes::new(self.alloc);
                self.phase = Phase::Over {
                    outcome: Outcome::Trapped(trap),
                    writes,
                };
                Paused::Ended
            }
            Run::Done { reply, writes, .. } => {
                self.phase = Phase::Over {
                    outcome: Outcome::Done(reply),
                    writes,
                };
                Paused::Ended
            }
        }
    }

    /// Waits for a record. All memory that its feeding needs is there.
    fn wait(&mut self, table: TableId, key: Key) -> Result<Key, Memory>
        ensures ok { OnOk result (self.new ≡ record self.old { phase = Phase.Waiting table key }) }
        ensures key { IfOk result (λ other. other ≡ key) }
        ensures err { OnErr result (self.new ≡ self.old) }
    {
        let told = key.share(self.alloc)?;
        self.fed.reserve(1)?;
        self.phase = Phase::Waiting { table, key };
        Ok(told)
    }

    /// The record that the run waits for, or nothing where it is absent. A place that was fed is never
    /// wanted again.
    pub fn feed(&mut self, value: Option<Blob>)
        requires { IsWaiting self.old.phase }
        ensures fed { self.new ≡ fed_with value self.old.phase self.old }
        ensures stands { (code : CodeValue) → Stands code self.old → Stands code self.new }
    {
        let phase = mem::replace(&mut self.phase, Phase::Ready);
        if let Phase::Waiting { table, key } = phase {
            self.fed.push_reserved(ReadItem {
                table,
                key,
                version: 0,
                read_at: 0,
                value,
            });
        }
    }

    /// The units charged.
    pub fn used(&self) -> u32
        ensures { result ≡ self.now.here.used }
    {
        self.here.used
    }

    /// How the run ended, with its changes.
    pub fn outcome(self) -> (Outcome, Writes)
        requires { HasEnded self.phase }
        ensures { self.phase ≡ Phase.Over result.0 result.1 }
    {
        let Gen { phase, .. } = self;
        match phase {
            Phase::Over { outcome, writes } => (outcome, writes),
            Phase::Ready | Phase::Waiting { .. } => unreachable!(),
        }
    }
}
