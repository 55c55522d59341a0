//! Tests of the step: each ordinary operation on states at the bounds of the stack and of the tape.
#![tactic(auto)]

#[cfg(test)]
mod tests;
