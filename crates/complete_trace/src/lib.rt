//! The rows of a run show all facts of rows, so that each entry is 0, and its trace is accepted for the statement of the run
//! (docs/PROOF.md). Laws; no code.
#![tactic(auto)]

mod laws;

pub use laws::{acceptance_laws, lookup_laws, stack_laws};
