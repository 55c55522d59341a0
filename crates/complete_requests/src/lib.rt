//! What the rows of a run ask of the small tables are the run's requests, which can be answered; cells below the sixteenth come
//! back, and the tape is the run's (docs/PROOF.md). Laws; no code.
#![tactic(auto)]

mod laws;

pub use laws::{asks_laws, fit_laws, overflow_laws, tape_laws};
