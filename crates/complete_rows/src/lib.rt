//! How the events of a run are written as rows of the main table and as requests to the small tables, and that these rows show
//! the facts of blocks, batches, groups and boundaries (docs/PROOF.md). Laws; no code.
#![tactic(auto)]

mod laws;

pub use laws::{agreement_laws, filled_laws, key_laws};
