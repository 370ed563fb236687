use sp_base::{CallNo, Caller};
use std::sync::atomic::{AtomicBool, Ordering};

/// A place that a served call passes.
#[derive(Clone, Copy, Debug, PartialEq, Eq)]
pub enum GatePlace {
    /// A member is in a turn of the call.
    InTurn,
    /// The call's end is known.
    Replied,
}

/// Sees each call pass, and may hold a thread up. Threads share it.
pub trait Gate {
    /// A call passes a place. Returns once its thread may go on.
    fn pass(&self, place: GatePlace, caller: Caller, number: CallNo);
}

/// A gate that holds nobody up.
#[derive(Clone, Copy, Debug)]
pub struct NoGate;

impl Gate for NoGate {
    fn pass(&self, _place: GatePlace, _caller: Caller, _number: CallNo) {}
}

/// Holds one call up in its turns until another call has its end, but for so many looks only.
///
/// It looks at a flag that the other call sets, and never sleeps. Once the looks have run out it
/// holds nobody up any more.
#[derive(Drop)]
pub struct HoldGate {
    held: CallNo,
    until: CallNo,
    limit: u32,
    passed: AtomicBool,
    ran_out: AtomicBool,
}

impl HoldGate {
    /// A gate that holds the calls with the number `held` until one with the number `until` has
    /// replied, for at most `limit` looks.
    pub fn new(held: CallNo, until: CallNo, limit: u32) -> HoldGate {
        HoldGate {
            held,
            until,
            limit,
            passed: AtomicBool::new(false),
            ran_out: AtomicBool::new(false),
        }
    }

    /// Whether the looks have run out.
    pub fn ran_out(&self) -> bool {
        self.ran_out.load(Ordering::SeqCst)
    }

    /// Looks at the flag until it is set or the looks have run out.
    fn hold(&self) {
        if self.ran_out() {
            return;
        }
        for _ in 0..self.limit {
            if self.passed.load(Ordering::SeqCst) {
                return;
            }
        }
        self.ran_out.store(true, Ordering::SeqCst);
    }
}

impl Gate for HoldGate {
    fn pass(&self, place: GatePlace, _caller: Caller, number: CallNo) {
        match place {
            GatePlace::InTurn if number == self.held => self.hold(),
            GatePlace::Replied if number == self.until => {
                self.passed.store(true, Ordering::SeqCst);
            }
            GatePlace::InTurn | GatePlace::Replied => {}
        }
    }
}
