//! Tests of merging, on a table of the hasher that is made by hand.
#![tactic(auto)]

#[cfg(test)]
mod making;
#[cfg(test)]
mod tests;
