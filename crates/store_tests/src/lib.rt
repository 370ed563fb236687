//! Tests of tables, journal and book: worked bytes, limits at their edge, and each call with ample
//! memory. They stand above the crates that they test, so that no crate is proved twice.
#![tactic(auto)]

#[cfg(test)]
mod answers;
#[cfg(test)]
mod entries;
#[cfg(test)]
mod tables;
