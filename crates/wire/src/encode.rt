ghost use Rattle.std.specs.Prelude.{◌≡◌, ◌+◌, ◌-◌, ◌<◌, ◌≤◌, ◌^◌, ◌++◌, ℕ, List, IfOk, drop, length};
ghost use Rattle.wire.specs.Answers.{answer, FitsAnswer, SpellsAnswer};
ghost use Rattle.wire.specs.Requests.{FitsRequest, request, SpellsRequest};
ghost use Rattle.sp_base.specs.Limits.{IsBody};
ghost use Rattle.sp_base.specs.Spelling.{frame, u32};
ghost use Rattle.wire.specs.declared.answers.Answer.{Answer};
ghost use Rattle.wire.specs.declared.requests.Request.{Request};

use crate::answers::Answer;
use crate::decode::{decode_answer, decode_request};
use crate::faults::WireFault;
use crate::requests::Request;
use crate::writing::put_u32;
use crate::writing_messages::{put_answer, put_request};
use sp_base::{Blob, Memory};
use std::alloc::Global;

/// Writes a number over the first four bytes.
#[tactic(auto, unfolding(sp_base::specs::Spelling::u32))]
fn write_front(bytes: &mut [u8], n: u32)
    requires { 4 ≤ length bytes.old }
    ensures { bytes.new ≡ u32 n ++ drop 4 bytes.old }
{
    bytes[..4].copy_from_slice(&n.to_be_bytes());
}

/// Writes the length of what follows over the first four bytes.
fn set_length(frame: &mut Vec<u8>)
    requires some { 4 ≤ length frame.old.items }
    requires short { length frame.old.items < 2 ^ 32 }
    ensures { frame.new.items ≡ u32 (length frame.old.items - 4) ++ drop 4 frame.old.items }
{
    let n = (frame.len() - 4) as u32;
    write_front(frame.as_mut_slice(), n);
}

/// The whole frame of a request, its length first.
pub fn encode_request(alloc: Global, message: &Request) -> Result<Blob, Memory>
    requires fits { FitsRequest message.now }
    requires short { IsBody (request message.now) }
    ensures { IfOk result (λ bytes. bytes ≡ frame (request message.now)) }
{
    let mut out = Vec::new(alloc);
    put_u32(&mut out, 0)?;
    put_request(&mut out, message)?;
    set_length(&mut out);
    Ok(Blob::from_vec(out))
}

/// The whole frame of an answer, its length first.
pub fn encode_answer(alloc: Global, message: &Answer) -> Result<Blob, Memory>
    requires fits { FitsAnswer message.now }
    requires short { IsBody (answer message.now) }
    ensures { IfOk result (λ bytes. bytes ≡ frame (answer message.now)) }
{
    let mut out = Vec::new(alloc);
    put_u32(&mut out, 0)?;
    put_answer(&mut out, message)?;
    set_length(&mut out);
    Ok(Blob::from_vec(out))
}

/// An equal request. What was encoded is decoded again.
pub fn share_request(alloc: Global, message: &Request) -> Result<Request, Memory>
    requires fits { FitsRequest message.now }
    requires short { IsBody (request message.now) }
    ensures { IfOk result (λ again. again ≡ message.now) }
{
    let frame = encode_request(alloc, message)?;
    let (_, body) = frame.bytes().split_at(4);
    match decode_request(alloc, body) {
        Ok(again) => Ok(again),
        Err(WireFault::Memory) => Err(Memory),
        Err(WireFault::Bad { .. }) => unreachable!(),
    }
}

/// An equal answer. What was encoded is decoded again.
pub fn share_answer(alloc: Global, message: &Answer) -> Result<Answer, Memory>
    requires fits { FitsAnswer message.now }
    requires short { IsBody (answer message.now) }
    ensures { IfOk result (λ again. again ≡ message.now) }
{
    let frame = encode_answer(alloc, message)?;
    let (_, body) = frame.bytes().split_at(4);
    match decode_answer(alloc, body) {
        Ok(again) => Ok(again),
        Err(WireFault::Memory) => Err(Memory),
        Err(WireFault::Bad { .. }) => unreachable!(),
    }
}

/// A body spells one message at most.
pub fn one_message()
    ensures requests { (body : List ℕ) (m n : Request) →
        SpellsRequest body m → SpellsRequest body n → m ≡ n }
    ensures answers { (body : List ℕ) (m n : Answer) →
        SpellsAnswer body m → SpellsAnswer body n → m ≡ n }
{}
