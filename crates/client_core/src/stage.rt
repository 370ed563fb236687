use crate::answered::CallAnswers;
use crate::later::{CallList, Later};
use sp_base::{Call, Key, Reads, TableId};

/// What a client waits for while it carries a call.
#[derive(Debug, Drop)]
pub enum Awaited {
    /// The text of the call's extension.
    TheText,
    /// The record at a place that the call reads.
    TheRecord { table: TableId, key: Key },
    /// How the call ended at the server.
    TheEnd,
}

/// A pushed call that its client carries to its end.
#[derive(Drop)]
pub struct Carried {
    /// How the calls before it in its batch ended.
    pub answered: CallAnswers,
    pub call: Call,
    /// The records that were given for it, in order.
    pub reads: Reads,
    /// The calls behind it, with what was answered to each.
    pub later: Later,
}

/// Where the talk of a client stands.
#[derive(Drop)]
pub enum Stage {
    /// Nothing is under way.
    Idle,
    /// The batch of these calls was asked.
    Asked { calls: CallList },
    /// A pushed call is carried, and waits for this.
    Carries { carried: Carried, awaited: Awaited },
    /// The peer was at fault, or there was no memory: no more calls are taken.
    Over,
}
