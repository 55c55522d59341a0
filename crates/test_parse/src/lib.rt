//! Tests of the grammar: sources that are read, and sources that are refused, each with the place and
//! the cause.
#![tactic(auto)]

#[cfg(test)]
mod tests;
