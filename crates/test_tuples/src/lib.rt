//! Tests of what the rows of the bitwise and memory's table give and ask on their buses.
#![tactic(auto)]

#[cfg(test)]
mod tests;
