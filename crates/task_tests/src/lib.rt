//! Tests of read lists and tasks: worked extensions cut into turns of every size, and each call with
//! ample memory. They stand above the crates that they test, so that no crate is proved twice.
#![tactic(auto)]

#[cfg(test)]
mod bodies;
#[cfg(test)]
mod cases;
#[cfg(test)]
mod comparing;
#[cfg(test)]
mod read_sets;
#[cfg(test)]
mod tests;
#[cfg(test)]
mod turns;
