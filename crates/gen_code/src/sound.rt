ghost use Rattle.std.specs.Prelude.{◌≡◌, ◌↔◌, IsTrue};
ghost use Rattle.std.specs.Option.{option_copied};
ghost use Rattle.gen_code.specs.Sound.{IsSound, IsSoundFn, Lands, is_charge, jump_of};

use crate::code::Code;
use crate::op::Op;

/// Where an instruction may jump to.
fn jump_of(op: &Op) -> Option<u32>
    ensures { result ≡ jump_of op.now }
{
    match op {
        Op::Jump(target) | Op::JumpFalse(target) | Op::Get(target) | Op::Multi(target) => {
            Some(*target)
        }
        _ => None,
    }
}

/// Whether an instruction charges units each time.
fn is_charge(op: Option<&Op>) -> bool
    ensures { result ≡ is_charge (option_copied op.entry) }
{
    matches!(op, Some(Op::Charge(_) | Op::Multi(_)))
}

/// Whether a jump from one instruction to another may stand.
fn lands(ops: &[Op], pc: usize, target: u32) -> bool
    ensures { IsTrue result ↔ Lands ops.now pc target }
{
    let target = target as usize;
    target < ops.len() && (pc < target || is_charge(ops.get(target)))
}

/// Whether all jumps of a function's code may stand.
fn is_sound_function(ops: &[Op]) -> bool
    ensures { IsTrue result ↔ IsSoundFn ops.now }
{
    for (pc, op) in ops.iter().enumerate() {
        if let Some(target) = jump_of(op) {
            if !lands(ops, pc, target) {
                return false;
            }
        }
    }
    true
}

/// Whether every jump stays inside its function, and every one that does not go forward lands on a
/// charge.
pub fn is_sound(code: &Code) -> bool
    ensures { IsTrue result ↔ IsSound code.now }
{
    for function in code.functions.as_slice() {
        if !is_sound_function(function.ops.as_slice()) {
            return false;
        }
    }
    true
}
