//! The operations that an instruction stands for.
#![tactic(auto)]

mod expansion;
mod moves;
mod pieces;
mod powers;

pub use expansion::{expand, expansions_are_packable};
