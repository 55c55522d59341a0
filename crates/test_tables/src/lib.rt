//! Tests of table files, of small tables that are filled, and of counts of tuples.
#![tactic(auto)]

#[cfg(test)]
mod chips;
#[cfg(test)]
mod counts;
#[cfg(test)]
mod files;
