//! Tests of scripts: each code of a bad line at its least case and one step before it, each limit at its
//! edge. They stand above the crate that they test, so that it is not proved twice.
#![tactic(auto)]

#[cfg(test)]
mod calls;
#[cfg(test)]
mod codes;
#[cfg(test)]
mod edges;
#[cfg(test)]
mod pairs;
#[cfg(test)]
mod whole;
