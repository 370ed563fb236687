//! Extensions that may run, and calls as tasks: in turns, pausing where a record is wanted.
#![tactic(auto)]

mod ext;
mod ext_fault;
mod laws;
mod parked;
mod phase;
mod plain;
mod task;
mod turned;

pub use ext::Ext;
pub use ext_fault::ExtFault;
pub use laws::{
    calls_begin_as_tasks, reads_are_paid, records_keep_tasks, turns_keep_tasks,
    turns_raise_the_units_spent, unfinished_calls_had_few_turns,
};
pub use parked::Parked;
pub use phase::Phase;
pub use plain::PlainTask;
pub use task::Task;
pub use turned::Turned;
