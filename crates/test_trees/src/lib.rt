//! Tests of trees with their digests, computed for each tree alone or for one after another.
#![tactic(auto)]

#[cfg(test)]
mod trees;
