ghost use Rattle.std.specs.Prelude.{◌≡◌};
ghost use Rattle.sp_base.specs.Placing.{is_pushed};

use sp_base::{MOST_PUSHED, Policy};

/// Whether a call that goes on is pushed back to its client. `load` counts the live calls, this one
/// among them; `spent` is its units; `bytes` is what its reads weigh in a frame.
pub fn place(policy: Policy, load: u32, spent: u32, bytes: u64, push_ok: bool) -> bool
    ensures { result ≡ is_pushed policy load spent bytes push_ok }
{
    push_ok && policy.high <= load && policy.least <= spent && bytes <= MOST_PUSHED
}
