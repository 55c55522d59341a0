//! The bitwise table is the list of its operations: its entries are 0 exactly where its rows are those of operations on numbers
//! of 32 bits (docs/CONSTRAINTS.md). Laws; no code.
#![tactic(auto)]

mod laws;

pub use laws::table_laws;
