//! The calls of a batch before their first turn.

ghost use Rattle.std.specs.Prelude.{◌≡◌, ◌≤◌, ◌<◌, ◌++◌, ◌∷◌, [], IfOk, OnOk, List, length, map};
ghost use Rattle.std.specs.List.{AllByRecursion};
ghost use Rattle.sp_base.specs.declared.calls.Asked.{Asked};
ghost use Rattle.sp_base.specs.Limits.{IsArguments};
ghost use Rattle.journal.specs.declared.entry.Entry.{Entry};
ghost use Rattle.book.specs.Standing.{StandsFor};
ghost use Rattle.session.specs.Batches.{call_of, is_bad_budget};
ghost use Rattle.session.specs.Starting.{AllStart, Starts, begun_with, caller_of, item_so_far};
ghost use Rattle.session.specs.Standing.{Fits, tenant_of};

use crate::plan::Begun;
use crate::session::Session;
use book::Book;
use sp_base::{Asked, Call, Caller, MOST_BUDGET, Memory, TenantId};
use std::alloc::Global;
use task::Task;
use wire::{Calls, Item};

/// What becomes of one call of a batch.
#[derive(Drop)]
pub enum Start {
    Refused(Item),
    Began(Task),
}

/// What becomes of the calls of a batch: the item of each so far, and those that began.
#[derive(Drop)]
pub struct Started {
    pub items: Vec<Item>,
    pub begun: Vec<Begun>,
}

/// A call that a tenant asks for.
fn call_of(tenant: TenantId, asked: Asked) -> Call
    ensures { result ≡ call_of tenant asked }
{
    let Asked {
        caller,
        number,
        ext,
        budget,
        push_ok,
        args,
    } = asked;
    Call {
        caller: Caller {
            tenant,
            number: caller,
        },
        number,
        ext,
        budget,
        push_ok,
        args,
    }
}

fn is_bad_budget(budget: u32) -> bool
    ensures { result ≡ is_bad_budget budget }
{
    budget == 0 || budget > MOST_BUDGET
}

/// Begins a call, behind those of the earlier callers, or tells why not.
fn begin_one(
    session: &Session,
    book: &Book,
    tenant: TenantId,
    earlier: &[u32],
    asked: Asked,
) -> Start
    requires args { IsArguments asked.args }
    requires admitted { tenant_of session.now.admitted ≡ Some tenant }
    ensures { (journal : List Entry) → StandsFor book.now journal → Fits session.now journal book.now.grants
        → (before : List Asked) → earlier.now ≡ map caller_of before
        → Starts session.now book.now journal tenant before asked result }
{
    if earlier.contains(&asked.caller) {
        return Start::Refused(Item::Repeated);
    }
    if let Some(parked) = session.parked.look(asked.caller) {
        return Start::Refused(Item::Busy {
            number: parked.call().number,
        });
    }
    if is_bad_budget(asked.budget) {
        return Start::Refused(Item::BadBudget);
    }
    let ext = match book.ext(tenant, asked.ext) {
        Ok(Some(ext)) => ext,
        Ok(None) => {
            return Start::Refused(Item::NoExtension {
                count: book.ext_count(tenant),
                at: book.len(),
            });
        }
        Err(Memory) => return Start::Refused(Item::Memory),
    };
    let _accepted = ext.program();
    let Ok(rights) = book.rights(tenant) else {
        return Start::Refused(Item::Memory);
    };
    match Task::begin(session.alloc, call_of(tenant, asked), ext, rights) {
        Ok(task) => Start::Began(task),
        Err(_) => Start::Refused(Item::Memory),
    }
}

impl Started {
    /// What became of the next call, which has this caller.
    fn add(&mut self, start: Start) -> Result<(), Memory>
        requires { length self.old.items.items < 65536 }
        ensures items { OnOk result (self.new.items.items ≡ self.old.items.items ++ item_so_far start ∷ []) }
        ensures begun { OnOk result (self.new.begun.items ≡ begun_with self.old.begun.items (length self.old.items.items) start) }
    {
        match start {
            Start::Refused(item) => {
                self.items.push(item)?;
                Ok(())
            }
            Start::Began(task) => {
                let place = self.items.len() as u16;
                self.items.push(Item::Memory)?;
                self.begun.push(Begun { place, task })?;
                Ok(())
            }
        }
    }
}

/// Begins the calls of a batch in order. One that began has want of memory as its item, until its end comes.
pub fn start_all(
    session: &Session,
    book: &Book,
    tenant: TenantId,
    calls: Calls,
) -> Result<Started, Memory>
    requires args { AllByRecursion (λ asked. IsArguments asked.args) calls }
    requires few { length calls ≤ 64 }
    requires admitted { tenant_of session.now.admitted ≡ Some tenant }
    ensures { IfOk result (λ started. (journal : List Entry) → StandsFor book.now journal
        → Fits session.now journal book.now.grants
        → AllStart session.now book.now journal tenant calls started.items.items started.begun.items) }
{
    let mut callers = Vec::new(session.alloc);
    let mut started = Started {
        items: Vec::new(session.alloc),
        begun: Vec::new(session.alloc),
    };
    for asked in calls.into_vec() {
        let caller = asked.caller;
        let start = begin_one(session, book, tenant, callers.as_slice(), asked);
        started.add(start)?;
        callers.push(caller)?;
    }
    Ok(started)
}
