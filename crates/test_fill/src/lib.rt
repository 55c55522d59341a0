//! Tests of the filling of the main table, and of the files of a run.
#![tactic(auto)]

#[cfg(test)]
mod files;
#[cfg(test)]
mod greatest;
#[cfg(test)]
mod tests;
#[cfg(test)]
mod whole;
