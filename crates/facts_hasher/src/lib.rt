//! The hasher's table is the list of its permutations: its entries are 0 exactly where its rows are those of permutations that
//! follow one another (docs/CONSTRAINTS.md). Laws; no code.
#![tactic(auto)]

mod laws;

pub use laws::table_laws;
