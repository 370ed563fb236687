//! Random batches of calls by a client, frame by frame: the journal is what its calls mean, and each call ends as it tells.

ghost use Rattle.std.specs.Prelude.{◌≡◌, IfOk};
ghost use Rattle.client_core.specs.declared.stage.Stage.TheVariants.{Idle};
ghost use Rattle.drive.specs.Hearing.{MayBeDriven};

use crate::bench::Bench;
use crate::books::TENANT;
use crate::calls::{Drawn, INSTALLED, calls_of, draw_batch, four};
use crate::dice::Dice;
use crate::judging::{Told, legal_part, tells};
use crate::talking::{Talk, greeted};
use client_core::CallAnswer;
use journal::Entry;
use std::alloc::Global;
use std::test::Fail;

/// How many calls were told so.
#[derive(Clone, Copy, Debug)]
struct Counts {
    committed: u64,
    conflicts: u64,
    repeated: u64,
    away: u64,
}

const NONE: Counts = Counts {
    committed: 0,
    conflicts: 0,
    repeated: 0,
    away: 0,
};

impl Counts {
    /// Counts a call.
    fn add(&mut self, told: Told, away: bool) {
        match told {
            Told::Committed => self.committed = self.committed.saturating_add(1),
            Told::Conflict => self.conflicts = self.conflicts.saturating_add(1),
            Told::Repeated => self.repeated = self.repeated.saturating_add(1),
        }
        if away {
            self.away = self.away.saturating_add(1);
        }
    }
}

/// Whether a caller stands among these calls.
fn stands_in(calls: &[Drawn], caller: u32) -> bool {
    calls.iter().any(|call| call.caller == caller)
}

/// Counts what the answers to a batch tell behind a journal of `had` entries, where all of them agree with the journal.
fn count_all(
    counts: &mut Counts,
    entries: &[Entry],
    had: u64,
    calls: &[Drawn],
    answers: &[CallAnswer],
) -> Result<(), Fail> {
    if answers.len() != calls.len() {
        return Err(Fail::new("another number of answers"));
    }
    for (place, call) in calls.iter().enumerate() {
        let answer = answers.get(place).ok_or("no answer")?;
        let is_repeated = stands_in(&calls[..place], call.caller);
        match tells(entries, had, call, is_repeated, answer) {
            Some(told) => counts.add(told, answer.away),
            None => return Err(Fail::new("an answer that does not agree")),
        }
    }
    Ok(())
}

/// A batch of calls with this number, in turns of a length that is drawn.
fn batch(
    alloc: Global,
    talk: &mut Talk,
    dice: &mut Dice,
    number: u64,
    counts: &mut Counts,
) -> Result<(), Fail>
    requires ready { MayBeDriven talk.old.bench.session talk.old.bench.book }
    requires idle { talk.old.client.stage ≡ Idle }
    requires own { talk.old.client.tenant ≡ TENANT }
    ensures ready { IfOk result (λ _. MayBeDriven talk.new.bench.session talk.new.bench.book) }
    ensures idle { IfOk result (λ _. talk.new.client.stage ≡ Idle) }
    ensures own { IfOk result (λ _. talk.new.client.tenant ≡ TENANT) }
{
    let quantum = dice.below(40) as u32 + 1;
    let all = draw_batch(alloc, dice, number)?;
    let calls = calls_of(alloc, all.as_slice())?;
    let had = talk.bench.book.len();
    let answers = talk.invoked(alloc, quantum, calls)?;
    let entries = talk.bench.book.journal().entries();
    count_all(counts, entries, had, all.as_slice(), answers.as_slice())
}

#[test]
fn random_calls_end_as_they_mean(rt: HostRuntime) -> Result<(), Fail> {
    let alloc = rt.alloc();
    let mut talk = greeted(alloc, Bench::over(alloc, four(alloc)?, 2)?)?;
    let mut dice = Dice { seed: 1 };
    let mut counts = NONE;
    'batches: for number in 1..201_u64 {
        batch(alloc, &mut talk, &mut dice, number, &mut counts)?;
    }
    let entries = talk.bench.book.journal().entries();
    assert_eq!(rt; legal_part(entries), entries.len());
    assert_eq!(rt;
        talk.bench.book.len(),
        INSTALLED.saturating_add(counts.committed)
    );
    assert!(rt;
        0 < counts.conflicts && 0 < counts.repeated && 0 < counts.away,
        "{counts:?}"
    );
    Ok(())
}
