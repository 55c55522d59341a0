//! Tests of the permutation and the sponge, and of the permutations that are kept.
#![tactic(auto)]

#[cfg(test)]
mod hashing;
#[cfg(test)]
mod memo;
