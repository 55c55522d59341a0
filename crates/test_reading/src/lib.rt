//! Tests of the instructions as texts: tokens that are read or refused, and the operations that they
//! stand for.
#![tactic(auto)]

#[cfg(test)]
mod tests;
