//! Pushed calls at their clients.

ghost use Rattle.std.specs.Prelude.{◌≡◌, ◌<◌, IfOk, OnOk, Some};
ghost use Rattle.clients.specs.First.{first_of};
ghost use Rattle.clients.specs.Pushed.{Pushed, is_callers};
ghost use Rattle.sim.specs.Play.{away_event, cut_event};
ghost use Rattle.sim.specs.Standing.{Fetches, Finishes, HasFetched, HasFinished, HasPushed, Stands, Tells, units_left, workers_of};

use crate::sim::Sim;
use crate::turns::{line_of, said};
use book::Read;
use report::{Line, Said};
use sp_base::{CallNo, Caller, Key, Memory, TableId};

impl Sim {
    /// The caller's pushed call goes on at its client, where it has one.
    pub(crate) fn away(&mut self, caller: Caller) -> Result<Line, Memory>
        requires { Stands self.old }
        ensures told { IfOk result (Tells self.old self.new (λ state. away_event state caller)) }
        ensures workers { OnOk result (workers_of self.new ≡ workers_of self.old) }
        ensures falls { OnOk result (HasPushed self.old caller → units_left self.new < units_left self.old) }
    {
        let Some(call) = self.pushed.look(caller) else {
            return Ok(Line::Idle);
        };
        let number = call.call().number;
        match call.wanted() {
            Some((table, key)) => {
                let key = key.share(self.alloc)?;
                self.fetch(caller, number, table, key)
            }
            None => self.finish(caller),
        }
    }

    /// The client fetches a record that it lacks.
    fn fetch(
        &mut self,
        caller: Caller,
        number: CallNo,
        table: TableId,
        key: Key,
    ) -> Result<Line, Memory>
        requires { Fetches self.old caller table key }
        ensures { IfOk result (λ line. (call : Pushed) → first_of (is_callers caller) self.old.pushed ≡ Some call
            → HasFetched self.old self.new caller number call table key line) }
    {
        let item = match self.book.read(caller.tenant, table, &key) {
            Read::Found(item) => item,
            Read::Memory => return Err(Memory),
            Read::Denied => unreachable!(),
        };
        let said = Said::Read {
            table,
            key,
            version: item.version,
            pushed: false,
        };
        self.pushed.give(caller, item)?;
        Ok(Line::Of {
            caller,
            number,
            said,
            away: false,
        })
    }

    /// The client sends the end of the call, which is committed or refused by what it has read.
    fn finish(&mut self, caller: Caller) -> Result<Line, Memory>
        requires { Finishes self.old caller }
        ensures { IfOk result (λ line. (call : Pushed) → first_of (is_callers caller) self.old.pushed ≡ Some call
            → HasFinished self.old self.new caller call line) }
    {
        let Some(call) = self.pushed.remove(caller) else {
            unreachable!();
        };
        let sent = call.into_sent();
        let caller = sent.call.caller;
        let number = sent.call.number;
        let said = said(self.book.commit_sent(sent))?;
        self.callers.remove(caller);
        Ok(Line::Of {
            caller,
            number,
            said,
            away: false,
        })
    }

    /// The caller's pushed call is forgotten, where it has one.
    pub(crate) fn cut(&mut self, caller: Caller) -> Result<Line, Memory>
        ensures told { IfOk result (Tells self.old self.new (λ state. cut_event state caller)) }
        ensures workers { OnOk result (workers_of self.new ≡ workers_of self.old) }
    {
        let Some(call) = self.pushed.remove(caller) else {
            return Ok(Line::Idle);
        };
        self.callers.remove(call.call().caller);
        Ok(line_of(call.call(), Said::Cut))
    }
}
