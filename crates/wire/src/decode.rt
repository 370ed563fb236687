ghost use Rattle.std.specs.Prelude.{◌≡◌, ◌<◌, ◌^◌, ℕ, IfOk, IsErrOf, MatchResult, length};
ghost use Rattle.wire.specs.Readers.{Gives, all_of};
ghost use Rattle.wire.specs.Messages.{answer_at, request_at};
ghost use Rattle.wire.specs.Answers.{LongestAnswer, SpellsAnswer};
ghost use Rattle.wire.specs.Requests.{LongestRequest, SpellsRequest};
ghost use Rattle.wire.specs.declared.answers.Answer.{Answer};
ghost use Rattle.wire.specs.declared.requests.Request.{Request};

use crate::answer_fields::answer;
use crate::answers::Answer;
use crate::faults::{ReadFault, WireFault, at_of};
use crate::request_fields::request;
use crate::requests::Request;
use std::alloc::Global;

fn whole_request(alloc: Global, body: &[u8]) -> Result<Request, ReadFault>
    ensures { Gives (λ m. m) result (all_of request_at body.now) }
{
    let (message, rest) = request(alloc, body)?;
    if !rest.is_empty() {
        return Err(ReadFault::Bad { left: rest.len() });
    }
    Ok(message)
}

/// The request that a body spells.
pub fn decode_request(alloc: Global, body: &[u8]) -> Result<Request, WireFault>
    // What is read is spelled so.
    ensures found { IfOk result (λ m. SpellsRequest body.now m) }
    // What is spelled so is read, unless memory runs out.
    ensures only { (m : Request) → SpellsRequest body.now m →
        MatchResult result (λ other. other ≡ m) (λ e. e ≡ WireFault.Memory) }
    // A bad place is where the longest part that begins a request ends.
    ensures bad { (at : ℕ) → IsErrOf result (WireFault.Bad at) → length body.now < 2 ^ 32 →
        LongestRequest body.now at }
{
    match whole_request(alloc, body) {
        Ok(message) => Ok(message),
        Err(ReadFault::Bad { left }) => Err(WireFault::Bad {
            at: at_of(body.len(), left),
        }),
        Err(ReadFault::Memory) => Err(WireFault::Memory),
    }
}

fn whole_answer(alloc: Global, body: &[u8]) -> Result<Answer, ReadFault>
    ensures { Gives (λ m. m) result (all_of answer_at body.now) }
{
    let (message, rest) = answer(alloc, body)?;
    if !rest.is_empty() {
        return Err(ReadFault::Bad { left: rest.len() });
    }
    Ok(message)
}

/// The answer that a body spells.
pub fn decode_answer(alloc: Global, body: &[u8]) -> Result<Answer, WireFault>
    // What is read is spelled so.
    ensures found { IfOk result (λ m. SpellsAnswer body.now m) }
    // What is spelled so is read, unless memory runs out.
    ensures only { (m : Answer) → SpellsAnswer body.now m →
        MatchResult result (λ other. other ≡ m) (λ e. e ≡ WireFault.Memory) }
    // A bad place is where the longest part that begins an answer ends.
    ensures bad { (at : ℕ) → IsErrOf result (WireFault.Bad at) → length body.now < 2 ^ 32 →
        LongestAnswer body.now at }
{
    match whole_answer(alloc, body) {
        Ok(message) => Ok(message),
        Err(ReadFault::Bad { left }) => Err(WireFault::Bad {
            at: at_of(body.len(), left),
        }),
        Err(ReadFault::Memory) => Err(WireFault::Memory),
    }
}
