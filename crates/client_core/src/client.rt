ghost use Rattle.std.specs.Prelude.{◌≡◌, ◌≢◌, ◌≤◌, [], IfOk, OnOk, OnErr, length, map};
ghost use Rattle.std.specs.Arc.{arc_value};
ghost use Rattle.std.specs.List.{AllByRecursion};
ghost use Rattle.sp_base.specs.Limits.{IsArguments};
ghost use Rattle.sp_base.specs.declared.calls.Call.{Call};
ghost use Rattle.wire.specs.Requests.{FitsRequest};
ghost use Rattle.client_core.specs.Finishing.{FinishesAsMeant, FitsNext, RestsAnswered};
ghost use Rattle.client_core.specs.Hearing.{Hears};
ghost use Rattle.client_core.specs.Talking.{asked_of, knowing};

use crate::asking::all_asked;
use crate::known::{Known, Said};
use crate::later::CallList;
use crate::next::Next;
use crate::stage::Stage;
use ext_mean::Program;
use sp_base::{Call, ExtNo, Memory, Rights, TenantId};
use std::alloc::Global;
use std::marker::Model;
use std::mem;
use std::sync::Arc;
use wire::{Answer, Request};

/// The client of one tenant, over one link that it does not hold. A call that is pushed back to it
/// starts again here from its arguments, with its whole budget, on the records that were sent; what it
/// lacks is fetched, and its end is sent.
#[derive(Drop)]
pub struct ClientCore {
    alloc: Global,
    tenant: TenantId,
    known: Known,
    stage: Stage,
}

impl Model for ClientCore {
    ghost use Rattle.client_core.specs.Talking.{CoreValue};
    ghost use Rattle.std.specs.Coded.{codes};
    ghost use Rattle.ext_mean.specs.contracts.statement.Block as block;

    ghost Value = { CoreValue };

    ghost coded = { Prim.hlevel (codes, block.the_row.coded) };

    ghost view = { λ c. record { tenant = c.tenant; known = c.known; stage = c.stage } };
}

impl ClientCore {
    /// A client with the rights of its Welcome, which has nothing under way.
    pub fn new(alloc: Global, tenant: TenantId, rights: Rights) -> ClientCore
        ensures { result ≡ record { tenant = tenant; known = record { rights = rights; programs = [] }; stage = Stage.Idle } }
    {
        ClientCore {
            alloc,
            tenant,
            known: Known::new(alloc, rights),
            stage: Stage::Idle,
        }
    }

    /// The client is told the program of an extension, and need not ask for the text of it. Without
    /// memory nothing changes.
    pub fn know(&mut self, number: ExtNo, program: Arc<Program>) -> Result<(), Memory>
        ensures ok { OnOk result (self.new ≡ record self.old { known = knowing self.old.known number (arc_value program) }) }
        ensures err { OnErr result (self.new ≡ self.old) }
    {
        self.known.know(number, program)
    }

    /// The request that asks these calls. Without memory nothing changes.
    pub fn batch(&mut self, calls: Vec<Call>) -> Result<Request, Memory>
        requires idle { self.old.stage ≡ Stage.Idle }
        requires some { 1 ≤ length calls.items }
        requires few { length calls.items ≤ 64 }
        requires own { AllByRecursion (λ (call : Call). call.caller.tenant ≡ self.old.tenant) calls.items }
        requires arguments { AllByRecursion (λ (call : Call). IsArguments call.args) calls.items }
        ensures asks { IfOk result (λ request. request ≡ Request.Batch (map asked_of calls.items)) }
        ensures asked { OnOk result (self.new ≡ record self.old { stage = Stage.Asked calls.items }) }
        ensures fits { IfOk result (λ request. FitsRequest request) }
        ensures err { OnErr result (self.new ≡ self.old) }
    {
        let asked = all_asked(self.alloc, calls.as_slice())?;
        self.stage = Stage::Asked {
            calls: CallList::from_vec(calls),
        };
        Ok(Request::Batch { calls: asked })
    }

    /// Hears the answer to the last request. Behind `PeerFault`, which comes exactly where the answer is
    /// not one in turn, and behind `Memory` the client takes no more calls.
    pub fn on_answer(&mut self, answer: Answer) -> Next
        ensures hears { result ≢ Next.Memory → Hears self.old answer result self.new }
        ensures memory { result ≡ Next.Memory → self.new.stage ≡ Stage.Over }
        // The end that is sent is the meaning on the records that were given.
        ensures meant { FinishesAsMeant self.new.known (result, self.new.stage) }
        // Behind the answers nothing is under way.
        ensures rests { RestsAnswered (result, self.new.stage) }
        ensures fits { FitsNext result }
    {
        let said = match mem::replace(&mut self.stage, Stage::Over) {
            Stage::Asked { calls } => self.known.hear_answers(calls, answer),
            Stage::Carries { carried, awaited } => self.known.hear_for(carried, awaited, answer),
            Stage::Idle | Stage::Over => return Next::PeerFault,
        };
        match said {
            Ok((next, stage)) => {
                self.stage = stage;
                next
            }
            Err(Memory) => Next::Memory,
        }
    }
}
