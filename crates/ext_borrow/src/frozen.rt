ghost use Rattle.std.specs.Prelude.{◌≡◌, Option};
ghost use Rattle.ext_mean.specs.Borrowing.{may_borrow};
ghost use Rattle.ext_mean.specs.OwnedItems.{any_borrower, any_held, borrows_marked, copies_itself, frozen_row, is_frozen, outlived, outlives};
ghost use Rattle.ext_borrow.specs.Scenes.{seen};

use crate::marks::is_marked;
use crate::scene::Scene;
use crate::table::{Row, borrows};
use ext_mean::{Origin, Variable};

/// Whether a slice that is in scope may borrow from the buffer with this row of borrowers.
fn any_borrower(row: &[bool], scope: &[Variable]) -> bool
    ensures { result ≡ any_borrower row.now scope.now }
{
    for variable in scope {
        if is_marked(row, variable.number) {
            return true;
        }
    }
    false
}

/// Whether one of these origins may borrow from a buffer.
fn any_held(buffer: usize, row: &[bool], held: &[Origin]) -> bool
    ensures { result ≡ any_held buffer row.now held.now }
{
    for origin in held {
        if borrows(buffer, row, *origin) {
            return true;
        }
    }
    false
}

/// Whether a buffer with this row of borrowers is frozen.
fn frozen_row(scene: &Scene, buffer: usize, row: &[bool]) -> bool
    ensures { result ≡ frozen_row (seen scene.now) buffer row.now }
{
    any_borrower(row, scene.scope.as_slice()) || any_held(buffer, row, scene.held.as_slice())
}

/// Whether a buffer is frozen: a slice in scope, or the keys of an open `multiget`, may borrow from it.
pub fn is_frozen(loans: &[Row], scene: &Scene, buffer: Option<usize>) -> bool
    ensures { result ≡ is_frozen loans.now (seen scene.now) buffer }
{
    match buffer {
        None => false,
        Some(buffer) => match loans.get(buffer) {
            Some(row) => frozen_row(scene, buffer, row.as_slice()),
            None => frozen_row(scene, buffer, &[]),
        },
    }
}

/// Whether a value may borrow from a buffer that is declared after a variable.
pub fn outlived(loans: &[Row], number: Option<usize>, origin: Origin) -> bool
    ensures { result ≡ outlived loans.now number origin }
{
    match number {
        None => false,
        Some(number) => outlives(loans, number, origin),
    }
}

fn outlives(loans: &[Row], number: usize, origin: Origin) -> bool
    ensures { result ≡ outlives 0 loans.now number origin }
{
    for (buffer, row) in loans.iter().enumerate() {
        if number < buffer && borrows(buffer, row.as_slice(), origin) {
            return true;
        }
    }
    false
}

/// Whether a value may borrow from a marked buffer.
pub fn borrows_marked(loans: &[Row], marks: &[bool], origin: Origin) -> bool
    ensures { result ≡ borrows_marked 0 loans.now marks.now origin }
{
    for (buffer, row) in loans.iter().enumerate() {
        if is_marked(marks, buffer) && borrows(buffer, row.as_slice(), origin) {
            return true;
        }
    }
    false
}

/// Whether `copy` into a buffer takes what may borrow from it.
pub fn copies_itself(loans: &[Row], buffer: Option<usize>, origin: Origin) -> bool
    ensures { result ≡ copies_itself loans.now buffer origin }
{
    match buffer {
        None => false,
        Some(buffer) => match loans.get(buffer) {
            Some(row) => borrows(buffer, row.as_slice(), origin),
            None => borrows(buffer, &[], origin),
        },
    }
}
