//! Tests of lists of links, and of statements that follow one another.
#![tactic(auto)]

#[cfg(test)]
mod following;
#[cfg(test)]
mod lists;
