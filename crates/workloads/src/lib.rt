//! Workloads: a source whose run takes as many turns as are asked for, and the advice that it takes (docs/FORMATS.md).
#![tactic(auto)]

mod making;
#[cfg(test)]
mod tests;

pub use making::{MOST_TURNS, Workload, make};
