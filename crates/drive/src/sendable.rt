//! That an answer may be sent. Its types have the ranges of its numbers and the lengths of its keys; the rest its
//! session promises.

ghost use Rattle.std.specs.Prelude.{◌≤◌, ◌<◌, ◌^◌, length};
ghost use Rattle.std.specs.List.{AllByRecursion};
ghost use Rattle.sp_base.specs.RightsList.{AreRights};
ghost use Rattle.sp_base.specs.Limits.{IsKey};
ghost use Rattle.sp_base.specs.Spelling.{FitReads, FitRights, FitsOpt, FitsOutcome, FitsRead, IsU32, IsU64};
ghost use Rattle.ext_mean.specs.Outcomes.{ReplyFits};
ghost use Rattle.rw_set.specs.ReadLists.{IsReadList};
ghost use Rattle.wire.specs.Answers.{FitsAnswer, FitsBatchItem, FitsFetchAnswer, FitsInstallAnswer, FitsItem, FitsParkedItem, FitsPutAnswer, FitsTextAnswer};
ghost use Rattle.session.specs.Standing.{IsItemWithin, IsParkedItemWithin, IsWithin};
ghost use Rattle.drive.specs.Sendable.{IsSendable};

use sp_base::{Key, Level, Outcome, ReadItem, Rights, TableId};
use wire::{Answer, FetchAnswer, InstallAnswer, Item, PutAnswer, TextAnswer};

fn u32_within(number: u32)
    ensures { IsU32 number }
{}

fn u64_within(number: u64)
    ensures { IsU64 number }
{}

fn key_within(key: &Key)
    ensures { IsKey key.now }
{
    let _bytes = key.bytes();
}

fn outcome_within(outcome: &Outcome)
    requires { ReplyFits outcome.now }
    ensures { FitsOutcome outcome.now }
{
    match outcome {
        Outcome::Done(reply) => u64_within(reply.code),
        Outcome::Trapped(_) | Outcome::Killed => {}
    }
}

fn read_within(read: &ReadItem)
    requires { FitsOpt read.now.value }
    ensures { FitsRead read.now }
{
    u32_within(read.table.0);
    key_within(&read.key);
    u64_within(read.version);
    u64_within(read.read_at);
}

fn reads_within(reads: &[ReadItem])
    requires { AllByRecursion (λ read. FitsOpt read.value) reads.now }
    ensures { AllByRecursion FitsRead reads.now }
{
    for read in reads {
        read_within(read);
    }
}

fn item_within(item: &Item)
    requires { IsItemWithin item.now }
    ensures { FitsBatchItem item.now }
{
    match item {
        Item::Committed { n, outcome } => {
            u64_within(*n);
            outcome_within(outcome);
        }
        Item::Stale { last, at } => {
            u64_within(*last);
            u64_within(*at);
        }
        Item::Conflict {
            table,
            key,
            read,
            read_at,
            now,
            now_at,
        } => {
            u32_within(table.0);
            key_within(key);
            u64_within(*read);
            u64_within(*read_at);
            u64_within(*now);
            u64_within(*now_at);
        }
        Item::Pushed { load, spent, reads } => {
            u32_within(*load);
            u32_within(*spent);
            reads_within(reads.as_slice());
        }
        Item::Full { at } => u64_within(*at),
        Item::Busy { number } => u64_within(number.0),
        Item::NoExtension { count, at } => {
            u32_within(*count);
            u64_within(*at);
        }
        Item::Repeated | Item::BadBudget | Item::Memory => {}
        Item::Foreign { .. } | Item::Shape { .. } | Item::Lied | Item::NotParked => {}
    }
}

fn items_within(items: &[Item])
    requires { AllByRecursion IsItemWithin items.now }
    ensures { AllByRecursion FitsBatchItem items.now }
{
    for item in items {
        item_within(item);
    }
}

fn parked_item_within(item: &Item)
    requires { IsParkedItemWithin item.now }
    ensures { FitsParkedItem item.now }
{
    match item {
        Item::Committed { n, outcome } => {
            u64_within(*n);
            outcome_within(outcome);
        }
        Item::Stale { last, at } => {
            u64_within(*last);
            u64_within(*at);
        }
        Item::Conflict {
            table,
            key,
            read,
            read_at,
            now,
            now_at,
        } => {
            u32_within(table.0);
            key_within(key);
            u64_within(*read);
            u64_within(*read_at);
            u64_within(*now);
            u64_within(*now_at);
        }
        Item::Full { at } => u64_within(*at),
        Item::Foreign { table } => u32_within(table.0),
        Item::Memory | Item::Shape { .. } | Item::Lied | Item::NotParked => {}
        Item::Pushed { .. }
        | Item::Busy { .. }
        | Item::NoExtension { .. }
        | Item::Repeated
        | Item::BadBudget => {}
    }
}

fn tables_within(list: &[(TableId, Level)])
    ensures { AllByRecursion (λ right. IsU32 right.0.0) list.now }
{
    for (table, _) in list {
        u32_within(table.0);
    }
}

fn rights_within(rights: &Rights)
    ensures { FitRights rights.now }
{
    tables_within(rights.as_slice());
}

fn installed_within(given: &InstallAnswer)
    requires { IsWithin (Answer.Installed given.now) }
    ensures { FitsInstallAnswer given.now }
{
    match given {
        InstallAnswer::Done { n, ext } => {
            u64_within(*n);
            u32_within(ext.0);
        }
        InstallAnswer::Rejected { line, .. } => u32_within(*line),
        InstallAnswer::Full { at } => u64_within(*at),
        InstallAnswer::Memory => {}
    }
}

fn fetched_within(given: &FetchAnswer)
    requires { IsWithin (Answer.Fetched given.now) }
    ensures { FitsFetchAnswer given.now }
{
    match given {
        FetchAnswer::Found {
            version,
            read_at,
            ..
        } => {
            u64_within(*version);
            u64_within(*read_at);
        }
        FetchAnswer::Denied | FetchAnswer::NotParked | FetchAnswer::Memory | FetchAnswer::Many => {}
    }
}

fn put_within(given: &PutAnswer)
    ensures { FitsPutAnswer given.now }
{
    match given {
        PutAnswer::Done(n) => u64_within(*n),
        PutAnswer::Full { at } => u64_within(*at),
        PutAnswer::Denied | PutAnswer::Memory => {}
    }
}

fn text_within(given: &TextAnswer)
    requires { IsWithin (Answer.Text given.now) }
    ensures { FitsTextAnswer given.now }
{
    match given {
        TextAnswer::NoExtension { count, at } => {
            u32_within(*count);
            u64_within(*at);
        }
        TextAnswer::Text(_) | TextAnswer::Memory => {}
    }
}

fn fields_within(answer: &Answer)
    requires { IsWithin answer.now }
    ensures { FitsAnswer answer.now }
{
    match answer {
        Answer::Welcome { rights, at } => {
            u64_within(*at);
            rights_within(rights);
        }
        Answer::Installed(given) => installed_within(given),
        Answer::Answers { items } => items_within(items.as_slice()),
        Answer::Fetched(given) => fetched_within(given),
        Answer::Finished { item } => parked_item_within(item),
        Answer::PutDone(given) => put_within(given),
        Answer::Text(given) => text_within(given),
        Answer::Fault { .. } => {}
    }
}

/// That an answer that is within its limits may be sent.
pub fn within(answer: &Answer)
    requires { IsWithin answer.now }
    ensures { IsSendable answer.now }
{
    fields_within(answer);
}
