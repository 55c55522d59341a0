//! The buses of blocks, children, loops and groups are even over the filled rows of a run (docs/CONSTRAINTS.md). Laws; no code.
#![tactic(auto)]

mod laws;

pub use laws::{blocks_laws, children_laws, groups_laws, loops_laws};
