//! Fills the small tables of a trace from what the rows of the main table ask of them.
#![tactic(auto)]

mod bitwise;
mod chips;
mod hasher;
mod kernel;
mod laws;
mod left;
mod memory;
mod range;
mod rounds;
#[cfg(test)]
mod tests;

pub use chips::{Chips, fill_chips};
pub use laws::range_laws;
