//! A dialogue, and how it is judged.

ghost use Rattle.std.specs.Prelude.{IfOk};
ghost use Rattle.drive.specs.Hearing.{MayBeDriven};

use crate::bench::Bench;
use crate::frames::{Ask, BATCH, FAULT, HELLO, NO_MEMORY, PUSHED, Told, WELCOME};
use crate::thought::{Shown, Thought, shown_by};
use sp_base::{Blob, Memory};
use std::alloc::{AllocFailed, Global};

/// How a dialogue went.
#[derive(Clone, Copy, Debug, PartialEq, Eq)]
pub enum Judged {
    /// Each answer is the one that is given where memory is not short.
    AsWritten,
    /// Memory was short, and each answer is allowed then.
    Short,
    /// It was short as the call ended, which stayed parked.
    Parked,
    /// It was short as the call ended, which was gone.
    Gone,
    Wrong,
}

impl From<Memory> for Judged {
    fn from(_: Memory) -> Judged {
        Judged::Short
    }
}

impl<T: Drop> From<AllocFailed<T>> for Judged {
    fn from(_: AllocFailed<T>) -> Judged {
        Judged::Short
    }
}

/// A session, and what its client thinks of its call.
#[derive(Drop)]
struct Dialogue {
    bench: Bench,
    thought: Thought,
    /// The entries of the journal that the client knows of.
    entries: u8,
    judged: Judged,
}

/// What is said to a frame behind which the session goes on.
fn said(alloc: Global, bench: &mut Bench, frame: &[u8]) -> Result<Blob, Judged>
    requires { MayBeDriven bench.old.session bench.old.book }
    ensures { IfOk result (λ _. MayBeDriven bench.new.session bench.new.book) }
{
    let driven = bench.hears(alloc, frame)?;
    if !driven.stopped {
        Ok(driven.said)
    } else if driven.said.bytes() == FAULT.as_slice() {
        Err(Judged::Short)
    } else {
        Err(Judged::Wrong)
    }
}

/// A client whose call 1 was handed back to it.
fn begun(alloc: Global) -> Result<Dialogue, Judged>
    ensures { IfOk result (λ dialogue. MayBeDriven dialogue.bench.session dialogue.bench.book) }
{
    let mut bench = Bench::open(alloc)?;
    let welcome = said(alloc, &mut bench, &HELLO)?;
    let pushed = said(alloc, &mut bench, &BATCH)?;
    if pushed.bytes() == NO_MEMORY.as_slice() {
        return Err(Judged::Short);
    }
    if welcome.bytes() != WELCOME.as_slice() || pushed.bytes() != PUSHED.as_slice() {
        return Err(Judged::Wrong);
    }
    Ok(Dialogue {
        bench,
        thought: Thought::PARKED,
        entries: 1,
        judged: Judged::AsWritten,
    })
}

/// How a dialogue goes on in which an answer showed this.
fn judged_behind(judged: Judged, thought: Thought, shown: Shown) -> Judged {
    match shown {
        Shown::Parked if thought == Thought::DOUBTFUL => Judged::Parked,
        Shown::Gone if thought == Thought::DOUBTFUL => Judged::Gone,
        Shown::Nothing => Judged::Short,
        _ => judged,
    }
}

impl Dialogue {
    fn asks(&mut self, alloc: Global, ask: Ask) -> Result<(), Judged>
        requires { MayBeDriven self.old.bench.session self.old.bench.book }
        ensures { IfOk result (λ _. MayBeDriven self.new.bench.session self.new.bench.book) }
    {
        let answer = said(alloc, &mut self.bench, ask.frame())?;
        let told = ask.told(answer.bytes(), self.entries);
        let shown = shown_by(ask, told);
        self.judged = judged_behind(self.judged, self.thought, shown);
        self.thought = self.thought.next(ask, shown).ok_or(Judged::Wrong)?;
        if told == Told::Committed {
            self.entries = self.entries.saturating_add(1);
        }
        Ok(())
    }

    /// How it went, where the journal has the entries that the client knows of and no other.
    fn judged(&self) -> Judged {
        if self.bench.book.len() == u64::from(self.entries) {
            self.judged
        } else {
            Judged::Wrong
        }
    }
}

/// The client ends its call, and then asks in this order.
fn asked(alloc: Global, order: [Ask; 3]) -> Result<Judged, Judged> {
    let mut dialogue = begun(alloc)?;
    dialogue.asks(alloc, Ask::End)?;
    for ask in order {
        dialogue.asks(alloc, ask)?;
    }
    Ok(dialogue.judged())
}

/// How such a dialogue goes.
pub fn play(alloc: Global, order: [Ask; 3]) -> Judged {
    match asked(alloc, order) {
        Ok(judged) => judged,
        Err(judged) => judged,
    }
}
