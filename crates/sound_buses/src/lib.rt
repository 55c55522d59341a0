//! What the buses of an accepted trace say of the rows of its main table: which END is whose, which row names a child, where
//! groups and immediates come from, where the cells below the sixteenth do, and what the small tables answer
//! (docs/CONSTRAINTS.md). Laws; no code.
#![tactic(auto)]

mod laws;

pub use laws::bus_laws;
