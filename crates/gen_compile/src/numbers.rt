//! Numbers that stand in instructions. None that a text within its limits leads to passes its width.

ghost use Rattle.std.specs.Prelude.{◌≡◌, ◌+◌, ◌^◌, ◌≤◌, length, IfOk, OnErr};

use gen_code::Op;
use sp_base::Memory;
use sqlite_items::Items;

/// The number of a slot, of a function or of variables.
pub fn narrow(number: usize) -> Result<u16, Memory>
    ensures value { IfOk result (λ narrowed. narrowed ≡ number) }
    ensures wide { OnErr result (2 ^ 16 ≤ number) }
{
    match u16::try_from(number) {
        Ok(narrowed) => Ok(narrowed),
        Err(_) => Err(Memory),
    }
}

/// The number of the instruction that comes so many behind the next one.
pub fn place_behind(ops: &Items<Op>, more: u32) -> Result<u32, Memory>
    ensures value { IfOk result (λ place. place ≡ length ops.now + more) }
    ensures wide { OnErr result (2 ^ 32 ≤ length ops.now + more) }
{
    match u32::try_from(ops.len()) {
        Ok(next) => match next.checked_add(more) {
            Some(place) => Ok(place),
            None => Err(Memory),
        },
        Err(_) => Err(Memory),
    }
}
