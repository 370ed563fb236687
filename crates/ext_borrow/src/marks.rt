ghost use Rattle.std.specs.Prelude.{◌≡◌, ◌-◌, ◌||◌, ◌++◌, OnOk, ◌∷◌, [], false, None, Some, replicate, length, slice_set, true, IfOk};
ghost use Rattle.ext_mean.specs.Origins.{is_marked};
ghost use Rattle.ext_mean.specs.OwnedItems.{marked, moves_marked, newly_gone, unmarked};
ghost use Rattle.ext_mean.specs.Ownership.{either, extended};

use sp_base::Memory;
use std::alloc::Global;

/// Whether a variable is among those that are marked.
pub fn is_marked(marks: &[bool], number: usize) -> bool
    ensures { result ≡ is_marked marks.now number }
{
    marks.get(number).copied().unwrap_or(false)
}

/// Sets a variable's mark, if it has one.
pub fn set_mark(marks: &mut Vec<bool>, number: usize, mark: bool)
    ensures { marks.new.items ≡ slice_set marks.old.items number mark }
{
    if number < marks.len() {
        marks[number] = mark;
    }
}

/// Marks a buffer that is moved.
pub fn mark(number: Option<usize>, marks: &mut Vec<bool>)
    ensures { marks.new.items ≡ marked number marks.old.items }
{
    if let Some(number) = number {
        set_mark(marks, number, true);
    }
}

/// Unmarks a variable that is assigned.
pub fn unmark(number: Option<usize>, marks: &mut Vec<bool>)
    ensures { marks.new.items ≡ unmarked number marks.old.items }
{
    if let Some(number) = number {
        set_mark(marks, number, false);
    }
}

/// Whether a marked buffer is moved.
pub fn moves_marked(marks: &[bool], moved: Option<usize>) -> bool
    ensures { result ≡ moves_marked marks.now moved }
{
    match moved {
        None => false,
        Some(number) => is_marked(marks, number),
    }
}

/// As many marks as these, none of them set.
pub fn no_marks(alloc: Global, count: usize) -> Result<Vec<bool>, Memory>
    ensures { IfOk result (λ marks. marks.items ≡ replicate count false) }
{
    Ok(vec![in alloc; false; count]?)
}

/// The variables declared since are there, and not gone.
pub fn extended(alloc: Global, marks: &[bool], count: usize) -> Result<Vec<bool>, Memory>
    ensures { IfOk result (λ longer. longer.items ≡ marks.now ++ replicate (count - length marks.now) false) }
{
    let mut longer = Vec::from_slice(alloc, marks)?;
    let rest = no_marks(alloc, count.saturating_sub(marks.len()))?;
    longer.extend_from_slice(rest.as_slice())?;
    Ok(longer)
}

/// Gone after one block or after the other.
pub fn either(alloc: Global, first: &[bool], second: &[bool]) -> Result<Vec<bool>, Memory>
    ensures { IfOk result (λ marks. marks.items ≡ either first.now second.now) }
{
    let mut marks = Vec::new(alloc);
    let mut one = first;
    let mut other = second;
    while let [mark, marks_left @ ..] = one {
        match other {
            [] => {
                marks.extend_from_slice(one)?;
                return Ok(marks);
            }
            [second_mark, more @ ..] => {
                marks.push(*mark || *second_mark)?;
                one = marks_left;
                other = more;
            }
        }
    }
    marks.extend_from_slice(other)?;
    Ok(marks)
}

/// Whether variables are gone after some items that were not gone before.
pub fn newly_gone(before: &[bool], after: &[bool]) -> bool
    ensures { result ≡ newly_gone before.now after.now }
{
    before
        .iter()
        .zip(after.iter())
        .any(|(first, second)| !*first && *second)
}

/// The same for two blocks.
pub fn either_newly_gone(before: &[bool], first: &[bool], second: &[bool]) -> bool
    ensures { result ≡ (newly_gone before.now first.now || newly_gone before.now second.now) }
{
    newly_gone(before, first) || newly_gone(before, second)
}
