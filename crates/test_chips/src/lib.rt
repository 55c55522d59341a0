//! Tests of the entries of the small tables: rows with the first fault of each.
#![tactic(auto)]

#[cfg(test)]
mod bitwise;
#[cfg(test)]
mod hasher;
#[cfg(test)]
mod lookup;
#[cfg(test)]
mod making;
#[cfg(test)]
mod memory;
