//! Entries 1 to 114 of the main table: those of `air_blocks`, and those of spans, 92 to 114; and those of dynamic blocks, 148 to 151
//! (docs/CONSTRAINTS.md).
#![tactic(auto)]

mod decoder;
mod dynamic;
mod quick;
mod spans;

pub use decoder::{first_fault, first_fault_seen};
pub use dynamic::dyn_fault_seen;
