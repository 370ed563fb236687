ghost use Rattle.std.specs.Prelude.{◌≡◌, ◌++◌, OnOk};
ghost use Rattle.wire.specs.Answers.{answer, fetch_answer, FitsAnswer, FitsFetchAnswer, FitsInstallAnswer, FitsPutAnswer, FitsTextAnswer, install_answer, put_answer, text_answer};
ghost use Rattle.wire.specs.Requests.{FitsRequest, request, request_fields, request_kind};

use crate::answers::{Answer, FetchAnswer, InstallAnswer, PutAnswer, TextAnswer};
use crate::requests::Request;
use crate::writing::{put_count, put_key, put_long, put_optional, put_outcome, put_u32, put_u64};
use crate::writing_items::put_item;
use crate::writing_lists::{put_calls, put_items, put_rights, put_writes};
use bytes::BufMut;
use sp_base::Memory;

fn kind_of(message: &Request) -> u8
    ensures { result ≡ request_kind message.now }
{
    match message {
        Request::Hello { .. } => 1,
        Request::Install { .. } => 2,
        Request::Batch { .. } => 3,
        Request::Fetch { .. } => 4,
        Request::Finish { .. } => 5,
        Request::Put { .. } => 6,
        Request::TextOf { .. } => 7,
        Request::Bye => 8,
    }
}

/// Adds a request's kind and fields.
pub fn put_request(out: &mut Vec<u8>, message: &Request) -> Result<(), Memory>
    requires { FitsRequest message.now }
    ensures { OnOk result (out.new.items ≡ out.old.items ++ request message.now) }
{
    out.put_u8(kind_of(message))?;
    put_request_fields(out, message)
}

fn put_request_fields(out: &mut Vec<u8>, message: &Request) -> Result<(), Memory>
    requires { FitsRequest message.now }
    ensures { OnOk result (out.new.items ≡ out.old.items ++ request_fields message.now) }
{
    match message {
        Request::Hello { tenant, key } => {
            put_u32(out, tenant.0)?;
            put_u64(out, *key)
        }
        Request::Install { text } => put_long(out, text.bytes()),
        Request::Batch { calls } => put_calls(out, calls),
        Request::Fetch {
            caller,
            number,
            table,
            key,
        } => {
            put_u32(out, *caller)?;
            put_u64(out, number.0)?;
            put_u32(out, table.0)?;
            put_key(out, key)
        }
        Request::Finish {
            caller,
            number,
            outcome,
            writes,
        } => {
            put_u32(out, *caller)?;
            put_u64(out, number.0)?;
            put_outcome(out, outcome)?;
            put_writes(out, writes)
        }
        Request::Put { table, key, value } => {
            put_u32(out, table.0)?;
            put_key(out, key)?;
            put_long(out, value.bytes())
        }
        Request::TextOf { ext } => put_u32(out, ext.0),
        Request::Bye => Ok(()),
    }
}

fn put_install_answer(out: &mut Vec<u8>, given: &InstallAnswer) -> Result<(), Memory>
    requires { FitsInstallAnswer given.now }
    ensures { OnOk result (out.new.items ≡ out.old.items ++ install_answer given.now) }
{
    match given {
        InstallAnswer::Done { n, ext } => {
            out.put_u8(0)?;
            put_u64(out, *n)?;
            put_u32(out, ext.0)
        }
        InstallAnswer::Rejected { line, code } => {
            out.put_u8(1)?;
            put_u32(out, *line)?;
            out.put_u8(*code)?;
            Ok(())
        }
        InstallAnswer::Full { at } => {
            out.put_u8(2)?;
            put_u64(out, *at)
        }
        InstallAnswer::Memory => {
            out.put_u8(3)?;
            Ok(())
        }
    }
}

fn put_fetch_answer(out: &mut Vec<u8>, given: &FetchAnswer) -> Result<(), Memory>
    requires { FitsFetchAnswer given.now }
    ensures { OnOk result (out.new.items ≡ out.old.items ++ fetch_answer given.now) }
{
    match given {
        FetchAnswer::Found {
            version,
            read_at,
            value,
        } => {
            out.put_u8(0)?;
            put_u64(out, *version)?;
            put_u64(out, *read_at)?;
            return put_optional(out, value);
        }
        FetchAnswer::Denied => out.put_u8(1)?,
        FetchAnswer::NotParked => out.put_u8(2)?,
        FetchAnswer::Memory => out.put_u8(3)?,
        FetchAnswer::Many => out.put_u8(4)?,
    }
    Ok(())
}

fn put_put_answer(out: &mut Vec<u8>, given: &PutAnswer) -> Result<(), Memory>
    requires { FitsPutAnswer given.now }
    ensures { OnOk result (out.new.items ≡ out.old.items ++ put_answer given.now) }
{
    match given {
        PutAnswer::Done(n) => {
            out.put_u8(0)?;
            put_u64(out, *n)
        }
        PutAnswer::Denied => {
            out.put_u8(1)?;
            Ok(())
        }
        PutAnswer::Full { at } => {
            out.put_u8(2)?;
            put_u64(out, *at)
        }
        PutAnswer::Memory => {
            out.put_u8(3)?;
            Ok(())
        }
    }
}

fn put_text_answer(out: &mut Vec<u8>, given: &TextAnswer) -> Result<(), Memory>
    requires { FitsTextAnswer given.now }
    ensures { OnOk result (out.new.items ≡ out.old.items ++ text_answer given.now) }
{
    match given {
        TextAnswer::Text(text) => {
            out.put_u8(0)?;
            put_long(out, text.bytes())
        }
        TextAnswer::NoExtension { count, at } => {
            out.put_u8(1)?;
            put_count(out, *count, *at)
        }
        TextAnswer::Memory => {
            out.put_u8(3)?;
            Ok(())
        }
    }
}

/// Adds an answer's kind and fields.
pub fn put_answer(out: &mut Vec<u8>, message: &Answer) -> Result<(), Memory>
    requires { FitsAnswer message.now }
    ensures { OnOk result (out.new.items ≡ out.old.items ++ answer message.now) }
{
    match message {
        Answer::Welcome { rights, at } => {
            out.put_u8(65)?;
            put_rights(out, rights)?;
            put_u64(out, *at)
        }
        Answer::Installed(given) => {
            out.put_u8(66)?;
            put_install_answer(out, given)
        }
        Answer::Answers { items } => {
            out.put_u8(67)?;
            put_items(out, items)
        }
        Answer::Fetched(given) => {
            out.put_u8(68)?;
            put_fetch_answer(out, given)
        }
        Answer::Finished { item } => {
            out.put_u8(69)?;
            put_item(out, item)
        }
        Answer::PutDone(given) => {
            out.put_u8(70)?;
            put_put_answer(out, given)
        }
        Answer::Text(given) => {
            out.put_u8(71)?;
            put_text_answer(out, given)
        }
        Answer::Fault { code } => {
            out.put_u8(72)?;
            out.put_u8(*code)?;
            Ok(())
        }
    }
}
