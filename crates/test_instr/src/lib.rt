//! Tests of the instructions: their operations, run step by step on states whose cells lie at the
//! bounds.
#![tactic(auto)]

#[cfg(test)]
mod tests;
