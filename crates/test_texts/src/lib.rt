//! Tests of the texts of inputs, of statements and of evidence.
#![tactic(auto)]

#[cfg(test)]
mod tests;
