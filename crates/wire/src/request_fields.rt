ghost use Rattle.std.specs.Prelude.{◌≡◌};
ghost use Rattle.wire.specs.Readers.{Gives};
ghost use Rattle.wire.specs.Messages.{fetch_at, finish_at, hello_at, put_at, request_at};

use crate::faults::ReadFault;
use crate::fields::{blob, key, outcome};
use crate::lists::{calls, writes};
use crate::numbers::{u32_any, u64_any};
use crate::requests::Request;
use sp_base::{CallNo, ExtNo, TableId, TenantId};
use std::alloc::Global;

#[tactic(auto, unfolding(crate::specs::Messages::hello_at))]
fn hello(bytes: &[u8]) -> Result<(Request, &[u8]), ReadFault>
    ensures { Gives (λ x. (x.0, x.1.now)) result (hello_at bytes.now) }
{
    let (tenant, rest) = u32_any(bytes)?;
    let (key, rest) = u64_any(rest)?;
    let tenant = TenantId(tenant);
    Ok((Request::Hello { tenant, key }, rest))
}

#[tactic(auto, unfolding(crate::specs::Messages::fetch_at))]
fn fetch(alloc: Global, bytes: &[u8]) -> Result<(Request, &[u8]), ReadFault>
    ensures { Gives (λ x. (x.0, x.1.now)) result (fetch_at bytes.now) }
{
    let (caller, rest) = u32_any(bytes)?;
    let (number, rest) = u64_any(rest)?;
    let (table, rest) = u32_any(rest)?;
    let (key, rest) = key(alloc, rest)?;
    let number = CallNo(number);
    let table = TableId(table);
    let request = Request::Fetch {
        caller,
        number,
        table,
        key,
    };
    Ok((request, rest))
}

#[tactic(auto, unfolding(crate::specs::Messages::finish_at))]
fn finish(alloc: Global, bytes: &[u8]) -> Result<(Request, &[u8]), ReadFault>
    ensures { Gives (λ x. (x.0, x.1.now)) result (finish_at bytes.now) }
{
    let (caller, rest) = u32_any(bytes)?;
    let (number, rest) = u64_any(rest)?;
    let (outcome, rest) = outcome(alloc, rest)?;
    let (writes, rest) = writes(alloc, rest)?;
    let number = CallNo(number);
    let request = Request::Finish {
        caller,
        number,
        outcome,
        writes,
    };
    Ok((request, rest))
}

#[tactic(auto, unfolding(crate::specs::Messages::put_at))]
fn put(alloc: Global, bytes: &[u8]) -> Result<(Request, &[u8]), ReadFault>
    ensures { Gives (λ x. (x.0, x.1.now)) result (put_at bytes.now) }
{
    let (table, rest) = u32_any(bytes)?;
    let (key, rest) = key(alloc, rest)?;
    let (value, rest) = blob(alloc, rest, 0, 4096)?;
    let table = TableId(table);
    Ok((Request::Put { table, key, value }, rest))
}

/// The request at the front.
#[tactic(auto, unfolding(crate::specs::Messages::request_at))]
pub fn request(alloc: Global, bytes: &[u8]) -> Result<(Request, &[u8]), ReadFault>
    ensures { Gives (λ x. (x.0, x.1.now)) result (request_at bytes.now) }
{
    match bytes {
        [] => Err(ReadFault::Bad { left: 0 }),
        [1, rest @ ..] => hello(rest),
        [2, rest @ ..] => {
            let (text, rest) = blob(alloc, rest, 1, 16_384)?;
            Ok((Request::Install { text }, rest))
        }
        [3, rest @ ..] => {
            let (calls, rest) = calls(alloc, rest)?;
            Ok((Request::Batch { calls }, rest))
        }
        [4, rest @ ..] => fetch(alloc, rest),
        [5, rest @ ..] => finish(alloc, rest),
        [6, rest @ ..] => put(alloc, rest),
        [7, rest @ ..] => {
            let (ext, rest) = u32_any(rest)?;
            let ext = ExtNo(ext);
            Ok((Request::TextOf { ext }, rest))
        }
        [8, rest @ ..] => Ok((Request::Bye, rest)),
        [_, ..] => Err(ReadFault::Bad { left: bytes.len() }),
    }
}
