//! Calls that threads pass at a gate.
use sp_base::{CallNo, Caller, TenantId};
use sp_outside::{Gate, GatePlace, HoldGate, NoGate};
use std::thread;

const CALLER: Caller = Caller {
    tenant: TenantId(1),
    number: 1,
};

/// More looks than a thread needs to begin.
const LOOKS: u32 = 1_000_000_000;

/// Passes each place of a call, as the member does that runs it.
fn runs<G: Gate>(gate: &G, number: u64) {
    gate.pass(GatePlace::InTurn, CALLER, CallNo(number));
    gate.pass(GatePlace::Replied, CALLER, CallNo(number));
}

#[test]
fn two_threads_pass_a_gate_in_both_orders(rt: HostRuntime) {
    let gate = HoldGate::new(CallNo(1), CallNo(2), LOOKS);
    thread::join(&rt, || runs(&gate, 1), || runs(&gate, 2));
    assert!(rt; !gate.ran_out());
    let gate = HoldGate::new(CallNo(1), CallNo(2), LOOKS);
    thread::join(&rt, || runs(&gate, 2), || runs(&gate, 1));
    assert!(rt; !gate.ran_out());
}

#[test]
fn a_gate_holds_one_call_in_its_turns_for_so_many_looks(rt: HostRuntime) {
    let gate = HoldGate::new(CallNo(1), CallNo(2), 3);
    gate.pass(GatePlace::InTurn, CALLER, CallNo(2));
    gate.pass(GatePlace::Replied, CALLER, CallNo(1));
    gate.pass(GatePlace::Replied, CALLER, CallNo(3));
    assert!(rt; !gate.ran_out());
    gate.pass(GatePlace::InTurn, CALLER, CallNo(1));
    assert!(rt; gate.ran_out());
    let passed = HoldGate::new(CallNo(1), CallNo(2), 1);
    runs(&passed, 2);
    runs(&passed, 1);
    assert!(rt; !passed.ran_out());
    runs(&NoGate, 1);
}
