use crate::blob::Blob;
use crate::numbers::{CallNo, Caller, ExtNo};

/// One invocation of an extension.
#[derive(Debug, Drop)]
pub struct Call {
    pub caller: Caller,
    pub number: CallNo,
    pub ext: ExtNo,
    /// How many units the run may use.
    pub budget: u32,
    /// Whether an overloaded server may push the call back to its client.
    pub push_ok: bool,
    pub args: Blob,
}

/// A call as a client asks for it, before its tenant is known.
#[derive(Debug, Drop)]
pub struct Asked {
    pub caller: u32,
    pub number: CallNo,
    pub ext: ExtNo,
    /// How many units the run may use.
    pub budget: u32,
    /// Whether an overloaded server may push the call back to its client.
    pub push_ok: bool,
    pub args: Blob,
}

/// When a call is pushed back to its client.
#[derive(Clone, Copy, Debug, PartialEq, Eq)]
pub struct Policy {
    /// The least load at which calls are pushed, in calls.
    pub high: u32,
    /// The least number of units that a pushed call has spent.
    pub least: u32,
}
