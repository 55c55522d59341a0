//! The constraints of the operations on numbers of 32 bits: entries 140 to 147 of the main table (docs/CONSTRAINTS.md).
#![tactic(auto)]

mod entries;

pub use entries::{first_fault, first_fault_seen};
