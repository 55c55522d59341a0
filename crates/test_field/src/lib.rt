//! Tests of elements, of words with their texts, and of lists.
#![tactic(auto)]

#[cfg(test)]
mod tests;
