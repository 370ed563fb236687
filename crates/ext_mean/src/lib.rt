//! The extension language: its tree, and what an extension means on the records that it reads.
#![tactic(auto)]

mod borrowing;
mod check_codes;
mod codes;
mod examples;
mod expr;
mod laws;
mod lookup;
mod name;
mod progress;
mod refusal;
mod run;
mod share;
mod state;
mod statement;
mod token;
mod tree;

pub use borrowing::{Gift, Origin, Variable};
pub use check_codes::{BorrowCode, TypeCode};
pub use codes::SyntaxCode;
pub use examples::worked_examples;
pub use expr::{BinOp, Expr};
pub use laws::{
    a_wanted_read_joins, greater_budgets_mean_the_same, known_records_cost, known_records_decide,
    loops_unroll, marked_may_borrow, only_readable_is_wanted, only_writable_is_changed,
    places_are_changed_once, reads_cost, runs_are_within_limits, runs_stay_within_budgets,
    used_units_suffice, wants_are_due, wants_cost, wants_persist,
};
pub use lookup::{lookup_is_spelled, lookup_means, lookup_program};
pub use name::Name;
pub use progress::Progress;
pub use refusal::Refusal;
pub use run::Run;
pub use state::{Buffer, Local, State, Value};
pub use statement::{Block, Kind, Statement};
pub use token::{Mark, Placed, Token, Word};
pub use tree::{Function, Param, Program};
