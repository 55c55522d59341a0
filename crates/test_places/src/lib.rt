//! Tests of places: the cycles of runs, each with the place of its instruction and the calls that led there, worked by hand.
#![tactic(auto)]

#[cfg(test)]
mod tests;
