//! What requests mean in a session that has said Hello and has no parked call.

use sp_base::Asked;
use wire::{Answer, FetchAnswer, InstallAnswer, Item, PutAnswer, Request, TextAnswer};

/// What a book has before a request.
#[derive(Clone, Copy)]
pub struct Had {
    pub entries: u64,
    pub exts: u32,
}

fn none_if(fits: bool) -> Option<u64> {
    if fits { Some(0) } else { None }
}

fn one_if(fits: bool) -> Option<u64> {
    if fits { Some(1) } else { None }
}

fn install(answer: &InstallAnswer, had: Had) -> Option<u64> {
    match answer {
        InstallAnswer::Done { n, ext } => one_if(*n == had.entries && ext.0 == had.exts),
        InstallAnswer::Rejected { .. } => Some(0),
        InstallAnswer::Full { .. } | InstallAnswer::Memory => None,
    }
}

fn put(table: u32, answer: &PutAnswer, had: Had) -> Option<u64> {
    match answer {
        PutAnswer::Done(n) => one_if((table == 5 || table == 6) && *n == had.entries),
        PutAnswer::Denied => none_if(table != 5 && table != 6),
        PutAnswer::Full { .. } | PutAnswer::Memory => None,
    }
}

fn text(ext: u32, answer: &TextAnswer, had: Had) -> Option<u64> {
    match answer {
        TextAnswer::Text(_) => none_if(ext < had.exts),
        TextAnswer::NoExtension { count, at } => {
            none_if(ext >= had.exts && *count == had.exts && *at == had.entries)
        }
        TextAnswer::Memory => None,
    }
}

/// The refusals of a call of a batch in their order; else it has run.
fn item(call: &Asked, repeated: bool, item: &Item, had: Had) -> Option<u64> {
    if repeated {
        return none_if(matches!(item, Item::Repeated));
    }
    if call.budget < 1 || call.budget > 100_000 {
        return none_if(matches!(item, Item::BadBudget));
    }
    match item {
        Item::NoExtension { count, at } => {
            none_if(call.ext.0 >= had.exts && *count == had.exts && *at == had.entries)
        }
        Item::Committed { .. } => one_if(call.ext.0 < had.exts),
        Item::Stale { .. } | Item::Conflict { .. } => none_if(call.ext.0 < had.exts),
        _ => None,
    }
}

/// Whether a call's caller stands among the calls before it.
fn is_repeated(calls: &[Asked], call: &Asked) -> bool {
    calls.iter().any(|other| other.caller == call.caller)
}

fn batch(calls: &[Asked], items: &[Item], had: Had) -> Option<u64> {
    if items.len() != calls.len() {
        return None;
    }
    let mut shown = 0_u64;
    for (place, call) in calls.iter().enumerate() {
        let one = items.get(place)?;
        let repeated = is_repeated(&calls[..place], call);
        shown = shown.wrapping_add(item(call, repeated, one, had)?);
    }
    Some(shown)
}

/// How many entries an answer shows, where it is one that the request means over a book that had so much; the tenant may
/// write the tables 5 and 6.
pub fn shown(request: &Request, answer: &Answer, had: Had) -> Option<u64> {
    match (request, answer) {
        (Request::Hello { .. }, Answer::Fault { code: 3 }) => Some(0),
        (Request::Install { .. }, Answer::Installed(given)) => install(given, had),
        (Request::Batch { calls }, Answer::Answers { items }) => {
            batch(calls.as_slice(), items.as_slice(), had)
        }
        (Request::Fetch { .. }, Answer::Fetched(FetchAnswer::NotParked)) => Some(0),
        (
            Request::Finish { .. },
            Answer::Finished {
                item: Item::NotParked,
            },
        ) => Some(0),
        (Request::Put { table, .. }, Answer::PutDone(given)) => put(table.0, given, had),
        (Request::TextOf { ext }, Answer::Text(given)) => text(ext.0, given, had),
        _ => None,
    }
}
