//! The permutations that were computed under one list of constants, so that none of those that are kept is computed again.
#![tactic(auto)]

mod permutations;

pub use permutations::{Permutations, types_cross};
