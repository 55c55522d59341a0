//! A row of an ordinary operation and the row behind it show one step of the machine where their facts hold, and a step fills
//! rows whose facts hold; limbs of 16 bits show numbers of 32 bits (docs/CONSTRAINTS.md, docs/MACHINE.md). Laws; no code.
#![tactic(auto)]

mod laws;

pub use laws::{fill_laws, number_laws, step_laws};
