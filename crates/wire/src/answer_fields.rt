ghost use Rattle.std.specs.Prelude.{◌≡◌};
ghost use Rattle.wire.specs.Readers.{Gives};
ghost use Rattle.wire.specs.Messages.{absent_at, answer_at, fetch_answer_at, found_at, install_answer_at, installed_at, put_answer_at, rejected_at, text_answer_at, welcome_at};

use crate::answers::{Answer, FetchAnswer, InstallAnswer, PutAnswer, TextAnswer};
use crate::faults::ReadFault;
use crate::fields::{blob, optional};
use crate::granted::rights;
use crate::item_fields::parked_item;
use crate::lists::items;
use crate::numbers::{byte, u32_any, u64_any};
use sp_base::ExtNo;
use std::alloc::Global;

#[tactic(auto, unfolding(crate::specs::Messages::installed_at))]
fn installed(bytes: &[u8]) -> Result<(InstallAnswer, &[u8]), ReadFault>
    ensures { Gives (λ x. (x.0, x.1.now)) result (installed_at bytes.now) }
{
    let (n, rest) = u64_any(bytes)?;
    let (ext, rest) = u32_any(rest)?;
    let ext = ExtNo(ext);
    Ok((InstallAnswer::Done { n, ext }, rest))
}

#[tactic(auto, unfolding(crate::specs::Messages::rejected_at))]
fn rejected(bytes: &[u8]) -> Result<(InstallAnswer, &[u8]), ReadFault>
    ensures { Gives (λ x. (x.0, x.1.now)) result (rejected_at bytes.now) }
{
    let (line, rest) = u32_any(bytes)?;
    let (code, rest) = byte(rest, 1, 16)?;
    Ok((InstallAnswer::Rejected { line, code }, rest))
}

#[tactic(auto, unfolding(crate::specs::Messages::install_answer_at))]
fn install_answer(bytes: &[u8]) -> Result<(InstallAnswer, &[u8]), ReadFault>
    ensures { Gives (λ x. (x.0, x.1.now)) result (install_answer_at bytes.now) }
{
    match bytes {
        [] => Err(ReadFault::Bad { left: 0 }),
        [0, rest @ ..] => installed(rest),
        [1, rest @ ..] => rejected(rest),
        [2, rest @ ..] => {
            let (at, rest) = u64_any(rest)?;
            Ok((InstallAnswer::Full { at }, rest))
        }
        [3, rest @ ..] => Ok((InstallAnswer::Memory, rest)),
        [_, ..] => Err(ReadFault::Bad { left: bytes.len() }),
    }
}

#[tactic(auto, unfolding(crate::specs::Messages::found_at))]
fn found(alloc: Global, bytes: &[u8]) -> Result<(FetchAnswer, &[u8]), ReadFault>
    ensures { Gives (λ x. (x.0, x.1.now)) result (found_at bytes.now) }
{
    let (version, rest) = u64_any(bytes)?;
    let (read_at, rest) = u64_any(rest)?;
    let (value, rest) = optional(alloc, rest)?;
    let answer = FetchAnswer::Found {
        version,
        read_at,
        value,
    };
    Ok((answer, rest))
}

#[tactic(auto, unfolding(crate::specs::Messages::fetch_answer_at))]
fn fetch_answer(alloc: Global, bytes: &[u8]) -> Result<(FetchAnswer, &[u8]), ReadFault>
    ensures { Gives (λ x. (x.0, x.1.now)) result (fetch_answer_at bytes.now) }
{
    match bytes {
        [] => Err(ReadFault::Bad { left: 0 }),
        [0, rest @ ..] => found(alloc, rest),
        [1, rest @ ..] => Ok((FetchAnswer::Denied, rest)),
        [2, rest @ ..] => Ok((FetchAnswer::NotParked, rest)),
        [3, rest @ ..] => Ok((FetchAnswer::Memory, rest)),
        [4, rest @ ..] => Ok((FetchAnswer::Many, rest)),
        [_, ..] => Err(ReadFault::Bad { left: bytes.len() }),
    }
}

#[tactic(auto, unfolding(crate::specs::Messages::put_answer_at))]
fn put_answer(bytes: &[u8]) -> Result<(PutAnswer, &[u8]), ReadFault>
    ensures { Gives (λ x. (x.0, x.1.now)) result (put_answer_at bytes.now) }
{
    match bytes {
        [] => Err(ReadFault::Bad { left: 0 }),
        [0, rest @ ..] => {
            let (n, rest) = u64_any(rest)?;
            Ok((PutAnswer::Done(n), rest))
        }
        [1, rest @ ..] => Ok((PutAnswer::Denied, rest)),
        [2, rest @ ..] => {
            let (at, rest) = u64_any(rest)?;
            Ok((PutAnswer::Full { at }, rest))
        }
        [3, rest @ ..] => Ok((PutAnswer::Memory, rest)),
        [_, ..] => Err(ReadFault::Bad { left: bytes.len() }),
    }
}

#[tactic(auto, unfolding(crate::specs::Messages::absent_at))]
fn absent(bytes: &[u8]) -> Result<(TextAnswer, &[u8]), ReadFault>
    ensures { Gives (λ x. (x.0, x.1.now)) result (absent_at bytes.now) }
{
    let (count, rest) = u32_any(bytes)?;
    let (at, rest) = u64_any(rest)?;
    Ok((TextAnswer::NoExtension { count, at }, rest))
}

#[tactic(auto, unfolding(crate::specs::Messages::text_answer_at))]
fn text_answer(alloc: Global, bytes: &[u8]) -> Result<(TextAnswer, &[u8]), ReadFault>
    ensures { Gives (λ x. (x.0, x.1.now)) result (text_answer_at bytes.now) }
{
    match bytes {
        [] => Err(ReadFault::Bad { left: 0 }),
        [0, rest @ ..] => {
            let (text, rest) = blob(alloc, rest, 1, 16_384)?;
            Ok((TextAnswer::Text(text), rest))
        }
        [1, rest @ ..] => absent(rest),
        [3, rest @ ..] => Ok((TextAnswer::Memory, rest)),
        [_, ..] => Err(ReadFault::Bad { left: bytes.len() }),
    }
}

#[tactic(auto, unfolding(crate::specs::Messages::welcome_at))]
fn welcome(alloc: Global, bytes: &[u8]) -> Result<(Answer, &[u8]), ReadFault>
    ensures { Gives (λ x. (x.0, x.1.now)) result (welcome_at bytes.now) }
{
    let (rights, rest) = rights(alloc, bytes)?;
    let (at, rest) = u64_any(rest)?;
    Ok((Answer::Welcome { rights, at }, rest))
}

/// The answer at the front.
#[tactic(auto, unfolding(crate::specs::Messages::answer_at))]
pub fn answer(alloc: Global, bytes: &[u8]) -> Result<(Answer, &[u8]), ReadFault>
    ensures { Gives (λ x. (x.0, x.1.now)) result (answer_at bytes.now) }
{
    match bytes {
        [] => Err(ReadFault::Bad { left: 0 }),
        [65, rest @ ..] => welcome(alloc, rest),
        [66, rest @ ..] => {
            let (given, rest) = install_answer(rest)?;
            Ok((Answer::Installed(given), rest))
        }
        [67, rest @ ..] => {
            let (items, rest) = items(alloc, rest)?;
            Ok((Answer::Answers { items }, rest))
        }
        [68, rest @ ..] => {
            let (given, rest) = fetch_answer(alloc, rest)?;
            Ok((Answer::Fetched(given), rest))
        }
        [69, rest @ ..] => {
            let (item, rest) = parked_item(alloc, rest)?;
            Ok((Answer::Finished { item }, rest))
        }
        [70, rest @ ..] => {
            let (given, rest) = put_answer(rest)?;
            Ok((Answer::PutDone(given), rest))
        }
        [71, rest @ ..] => {
            let (given, rest) = text_answer(alloc, rest)?;
            Ok((Answer::Text(given), rest))
        }
        [72, rest @ ..] => {
            let (code, rest) = byte(rest, 1, 5)?;
            Ok((Answer::Fault { code }, rest))
        }
        [_, ..] => Err(ReadFault::Bad { left: bytes.len() }),
    }
}
