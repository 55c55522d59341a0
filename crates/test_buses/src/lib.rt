//! Tests of what the rows of the main table give and ask on each bus.
#![tactic(auto)]

#[cfg(test)]
mod tests;
