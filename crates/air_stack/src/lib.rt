//! The constraints of the stack: entries 115 to 139 of the main table (docs/CONSTRAINTS.md).
#![tactic(auto)]

mod cells;
mod depth;
mod fault;
mod moves;
mod operands;
mod quick;

pub use fault::{first_fault, first_fault_seen};
