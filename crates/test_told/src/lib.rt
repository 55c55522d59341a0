//! Tests of what is told of a trace: the rows that a tuple's key says, rows beside a tuple, and constraints, buses and kinds in words.
#![tactic(auto)]

#[cfg(test)]
mod rows;
#[cfg(test)]
mod words;
