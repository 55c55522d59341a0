//! Tests of shelves and sinks, in memory and over the system, and of streams that stop.
#![tactic(auto)]

#[cfg(test)]
mod tests;
