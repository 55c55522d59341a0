//! Tests of the constraints of the main table: first faults of rows that are made by hand.
#![tactic(auto)]

#[cfg(test)]
mod tests;
