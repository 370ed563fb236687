//! The grammar of extensions, read with one token of look-ahead: what a reader that stands between two
//! tokens has to know, and that what it answers is what the grammar says.
//!
//! The reader is a definition, in `specs/Coming.antt` and `specs/Reading.antt`. This crate has no code.
#![tactic(auto)]

mod laws;

pub use laws::{
    accepted_are_programs, faults_are_first, passed_have_no_code, programs_are_accepted,
};
