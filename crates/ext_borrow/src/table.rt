ghost use Rattle.std.specs.Prelude.{◌≡◌, false, true, IfOk, List, [], slice_set, if◌then◌else◌};
ghost use Rattle.ext_mean.specs.Borrowing.{borrowers, borrows, may_borrow, one_round, rounds, rows};

use crate::marks::{is_marked, no_marks, set_mark};
use ext_mean::{Gift, Origin};
use sp_base::Memory;
use std::alloc::Global;
use std::marker::Model;

/// The slices that may borrow from one buffer, which contracts see as their marks.
#[derive(Debug, Drop)]
pub struct Row {
    marks: Vec<bool>,
}

impl Model for Row {
    ghost use Rattle.std.specs.Prelude.{Bool, List};

    ghost Value = { List Bool };

    ghost view = { λ row. row.marks.items };
}

impl Row {
    pub fn as_slice(&self) -> &[bool]
        ensures { result.now ≡ self.now }
    {
        self.marks.as_slice()
    }
}

/// Whether a value of this origin borrows from a buffer, where the marked slices do.
pub fn borrows(buffer: usize, marks: &[bool], origin: Origin) -> bool
    ensures { result ≡ borrows buffer marks.now origin }
{
    match origin {
        Origin::Nothing => false,
        Origin::View(number) => number == buffer,
        Origin::Slice(number) => is_marked(marks, number),
    }
}

/// Marks who is given what borrows from the buffer, and answers whether that is new.
#[tactic(auto, using(crate::proofs::TableLemmas::table_lemmas))]
fn give(buffer: usize, gift: Gift, marks: &mut Vec<bool>) -> bool
    ensures given { marks.new.items ≡ (if borrows buffer marks.old.items gift.origin
        then slice_set marks.old.items gift.to true else marks.old.items) }
    ensures still { result ≡ false → marks.new.items ≡ marks.old.items }
{
    if !borrows(buffer, marks.as_slice(), gift.origin) {
        return false;
    }
    if is_marked(marks.as_slice(), gift.to) {
        return false;
    }
    set_mark(marks, gift.to, true);
    true
}

/// One round through all gifts. It answers whether it marked a slice.
fn one_round(buffer: usize, gifts: &[Gift], marks: &mut Vec<bool>) -> bool
    ensures round { marks.new.items ≡ one_round buffer gifts.now marks.old.items }
    ensures still { result ≡ false → marks.new.items ≡ marks.old.items }
{
    let mut changed = false;
    for gift in gifts {
        if give(buffer, *gift, marks) {
            changed = true;
        }
    }
    changed
}

/// The slices that may borrow from a buffer.
#[tactic(auto, using(crate::proofs::TableLemmas::table_lemmas), unfolding(ext_mean::specs::Borrowing::borrowers))]
fn borrowers(alloc: Global, gifts: &[Gift], count: usize, buffer: usize) -> Result<Row, Memory>
    ensures { IfOk result (λ row. row ≡ borrowers gifts.now count buffer) }
{
    let mut marks = no_marks(alloc, count)?;
    for _round in 0..count {
        if !one_round(buffer, gifts, &mut marks) {
            break;
        }
    }
    Ok(Row { marks })
}

/// For each variable, the slices that may borrow from it.
#[tactic(auto, using(crate::proofs::TableLemmas::table_lemmas))]
pub fn loans(alloc: Global, gifts: &[Gift], count: usize) -> Result<Vec<Row>, Memory>
    ensures { IfOk result (λ loans. loans.items ≡ rows gifts.now count 0 count) }
{
    let mut loans = Vec::new(alloc);
    for buffer in 0..count {
        loans.push(borrowers(alloc, gifts, count, buffer)?)?;
    }
    Ok(loans)
}
