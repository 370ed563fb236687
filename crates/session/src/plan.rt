use rw_set::Sent;
use task::{Ext, Task};
use wire::{Answer, Request};

/// A request that was looked at without the book.
#[derive(Drop)]
pub enum Ask {
    /// Any request but an Install or a Finish.
    Plain(Request),
    /// An Install, whose text is accepted.
    Install(Ext),
    /// A Finish, whose run is no longer parked.
    Finish(Sent),
}

/// What is to be done about a request.
#[derive(Drop)]
pub enum Plan {
    Send(Answer),
    /// Calls of a batch run to their ends, and then `Session::finish_batch` answers.
    Run(Vec<Begun>),
    /// The session has ended, with this answer or, behind a Bye, with none.
    Stop(Option<Answer>),
}

/// The call at one place of its batch, counted from 0, that may have turns.
#[derive(Drop)]
pub struct Begun {
    pub place: u16,
    pub task: Task,
}
