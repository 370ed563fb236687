//! The calls of a batch, as it asks them.

ghost use Rattle.std.specs.Prelude.{◌≡◌, ◌≤◌, IfOk, length, map};
ghost use Rattle.std.specs.List.{AllByRecursion};
ghost use Rattle.sp_base.specs.Limits.{IsArguments};
ghost use Rattle.sp_base.specs.Spelling.{FitCalls, FitsAsked};
ghost use Rattle.sp_base.specs.declared.calls.Call.{Call};
ghost use Rattle.client_core.specs.Talking.{asked_of};

use sp_base::{Asked, Blob, Call, Memory};
use std::alloc::Global;
use wire::Calls;

/// A call as its batch asks it, with these arguments.
fn asking(call: &Call, args: Blob) -> Asked
    ensures { result ≡ record (asked_of call.now) { args = args } }
{
    Asked {
        caller: call.caller.number,
        number: call.number,
        ext: call.ext,
        budget: call.budget,
        push_ok: call.push_ok,
        args,
    }
}

/// A call as its batch asks it, with a copy of its arguments.
fn asked(alloc: Global, call: &Call) -> Result<Asked, Memory>
    requires { IsArguments call.now.args }
    ensures asks { IfOk result (λ asked. asked ≡ asked_of call.now) }
    ensures fits { IfOk result (λ asked. FitsAsked asked) }
{
    let args = call.args.share(alloc)?;
    let asked = asking(call, args);
    Ok(asked)
}

/// From 1 to 64 calls as their batch asks them.
pub fn all_asked(alloc: Global, calls: &[Call]) -> Result<Calls, Memory>
    requires some { 1 ≤ length calls.now }
    requires few { length calls.now ≤ 64 }
    requires arguments { AllByRecursion (λ (call : Call). IsArguments call.args) calls.now }
    ensures asks { IfOk result (λ asked. asked ≡ map asked_of calls.now) }
    ensures fits { IfOk result (λ asked. FitCalls asked) }
{
    let mut all = Vec::new(alloc);
    for call in calls {
        all.push(asked(alloc, call)?)?;
    }
    Ok(Calls::from_vec(all))
}
