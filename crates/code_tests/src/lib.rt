//! Tests of the code of extensions: each form with its instructions as they follow from the rules, sound
//! and unsound code, the largest programs, and the machine beside the plain evaluator. They stand above
//! the crates that they test, so that no crate is proved twice.
#![tactic(auto)]

#[cfg(test)]
mod codes;
#[cfg(test)]
mod examples;
#[cfg(test)]
mod largest;
#[cfg(test)]
mod machine;
#[cfg(test)]
mod meanings;
#[cfg(test)]
mod records;
#[cfg(test)]
mod running;
#[cfg(test)]
mod shown;
#[cfg(test)]
mod sound;
#[cfg(test)]
mod telling;
#[cfg(test)]
mod texts;
