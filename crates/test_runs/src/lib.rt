//! Tests of runs: how programs of every kind of block end, trap and are cut off, and what their
//! cycles show.
#![tactic(auto)]

#[cfg(test)]
mod tests;
