//! Tests of assembling: sources that are refused, and the trees of those that are not.
#![tactic(auto)]

#[cfg(test)]
mod tests;
