//! The run that the rows of an accepted trace show: the tree that is built along them has the digests that they show, is hashed
//! where it says and runs as they go, and each row shows its cycle (docs/CONSTRAINTS.md). Laws; no code.
#![tactic(auto)]

mod laws;

pub use laws::{cycle_laws, end_laws, fact_laws, run_laws, tree_laws};
