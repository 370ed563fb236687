//! A client that talks to a session, frame by frame.

ghost use Rattle.std.specs.Prelude.{◌≡◌, ◌≤◌, IfOk, length};
ghost use Rattle.std.specs.List.{AllByRecursion};
ghost use Rattle.sp_base.specs.Limits.{IsArguments};
ghost use Rattle.sp_base.specs.declared.calls.Call.{Call};
ghost use Rattle.sp_base.specs.declared.limits.TheConstants.{MOST_QUANTUM};
ghost use Rattle.wire.specs.Requests.{FitsRequest};
ghost use Rattle.client_core.specs.declared.stage.Stage.TheVariants.{Idle};
ghost use Rattle.drive.specs.Hearing.{MayBeDriven};

use crate::bench::Bench;
use crate::books::TENANT;
use client_core::{CallAnswers, ClientCore, Next};
use sp_base::Call;
use std::alloc::Global;
use std::test::Fail;
use wire::{Answer, Request, decode_answer, encode_request};

/// A client of tenant 1, and the session that it talks to.
#[derive(Drop)]
pub struct Talk {
    pub bench: Bench,
    pub client: ClientCore,
}

/// The body of the one frame that these bytes are.
fn body_said(said: &[u8]) -> Result<&[u8], Fail> {
    match said {
        [first, second, third, fourth, body @ ..] => {
            if u32::from_be_bytes([*first, *second, *third, *fourth]) as usize == body.len() {
                Ok(body)
            } else {
                Err(Fail::new("no frame"))
            }
        }
        _ => Err(Fail::new("half a length")),
    }
}

/// What the session answers to a request.
fn answer_to(
    alloc: Global,
    bench: &mut Bench,
    quantum: u32,
    request: &Request,
) -> Result<Answer, Fail>
    requires ready { MayBeDriven bench.old.session bench.old.book }
    requires some { 1 ≤ quantum }
    requires most { quantum ≤ MOST_QUANTUM }
    requires fits { FitsRequest request.now }
    ensures { IfOk result (λ _. MayBeDriven bench.new.session bench.new.book) }
{
    let frame = encode_request(alloc, request)?;
    let said = bench.hears(alloc, quantum, frame.bytes())?;
    let body = body_said(said.bytes())?;
    Ok(decode_answer(alloc, body)?)
}

/// A client that has greeted its session.
pub fn greeted(alloc: Global, bench: Bench) -> Result<Talk, Fail>
    requires { MayBeDriven bench.session bench.book }
    ensures ready { IfOk result (λ talk. MayBeDriven talk.bench.session talk.bench.book) }
    ensures idle { IfOk result (λ talk. talk.client.stage ≡ Idle) }
    ensures own { IfOk result (λ talk. talk.client.tenant ≡ TENANT) }
{
    let mut bench = bench;
    let hello = Request::Hello {
        tenant: TENANT,
        key: 7,
    };
    match answer_to(alloc, &mut bench, 1000, &hello)? {
        Answer::Welcome { rights, .. } => {
            let client = ClientCore::new(alloc, TENANT, rights);
            Ok(Talk { bench, client })
        }
        _ => Err(Fail::new("no welcome")),
    }
}

impl Talk {
    /// Sends a request, and then what the client says to each answer, until all its calls have ended.
    fn goes_on(&mut self, alloc: Global, quantum: u32, first: Request) -> Result<CallAnswers, Fail>
        requires ready { MayBeDriven self.old.bench.session self.old.bench.book }
        requires some { 1 ≤ quantum }
        requires most { quantum ≤ MOST_QUANTUM }
        requires fits { FitsRequest first }
        ensures ready { IfOk result (λ _. MayBeDriven self.new.bench.session self.new.bench.book) }
        ensures idle { IfOk result (λ _. self.new.client.stage ≡ Idle) }
        ensures own { IfOk result (λ _. self.new.client.tenant ≡ self.old.client.tenant) }
    {
        let mut request = first;
        'requests: for _turn in 0..64 {
            let answer = answer_to(alloc, &mut self.bench, quantum, &request)?;
            match self.client.on_answer(answer) {
                Next::Send(next) => request = next,
                Next::Answered(answers) => return Ok(answers),
                Next::PeerFault | Next::Memory => return Err(Fail::new("no answer in turn")),
            }
        }
        Err(Fail::new("no end"))
    }

    /// How the calls of a batch end.
    pub fn invoked(
        &mut self,
        alloc: Global,
        quantum: u32,
        calls: Vec<Call>,
    ) -> Result<CallAnswers, Fail>
        requires ready { MayBeDriven self.old.bench.session self.old.bench.book }
        requires idle { self.old.client.stage ≡ Idle }
        requires tenant { self.old.client.tenant ≡ TENANT }
        requires quantum_some { 1 ≤ quantum }
        requires quantum_most { quantum ≤ MOST_QUANTUM }
        requires some { 1 ≤ length calls.items }
        requires few { length calls.items ≤ 64 }
        requires sized { AllByRecursion (λ (call : Call). IsArguments call.args) calls.items }
        requires own { AllByRecursion (λ (call : Call). call.caller.tenant ≡ TENANT) calls.items }
        ensures ready { IfOk result (λ _. MayBeDriven self.new.bench.session self.new.bench.book) }
        ensures idle { IfOk result (λ _. self.new.client.stage ≡ Idle) }
        ensures own { IfOk result (λ _. self.new.client.tenant ≡ TENANT) }
    {
        let first = self.client.batch(calls)?;
        self.goes_on(alloc, quantum, first)
    }
}
