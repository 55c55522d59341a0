//! Tests of operations and their items, of states and statements, and of tables.
#![tactic(auto)]

#[cfg(test)]
mod operations;
#[cfg(test)]
mod states;
#[cfg(test)]
mod tables;
