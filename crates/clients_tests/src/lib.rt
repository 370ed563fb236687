//! Tests of pushed calls at their clients, by both bodies. They stand above the crate that they test, so that
//! it is not proved twice.
#![tactic(auto)]

#[cfg(test)]
mod cases;
#[cfg(test)]
mod ends;
#[cfg(test)]
mod tests;
