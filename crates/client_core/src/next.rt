use crate::answered::CallAnswers;
use wire::Request;

/// What a client does next.
#[derive(Debug, Drop)]
pub enum Next {
    /// It sends this request, and waits for its answer.
    Send(Request),
    /// All calls of the batch have ended so, in its order.
    Answered(CallAnswers),
    /// The answer is not one for the last request. The client takes no more calls.
    PeerFault,
    /// The client found no memory, and takes no more calls.
    Memory,
}
