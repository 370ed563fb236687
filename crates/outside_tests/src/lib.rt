//! Tests of `sp_outside`: what its clauses leave to the system, to memory and to other threads.
#![tactic(auto)]

#[cfg(test)]
mod forms;
#[cfg(test)]
mod gates;
#[cfg(test)]
mod links;
#[cfg(test)]
mod streams;
#[cfg(test)]
mod tcp;
