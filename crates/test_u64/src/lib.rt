//! Tests of the procedures on numbers of 64 bits: their operations, run step by step on numbers at the
//! bounds.
#![tactic(auto)]

#[cfg(test)]
mod tests;
