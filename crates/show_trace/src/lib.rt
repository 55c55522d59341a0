//! The command `trace`: the cycles of a source's run, each with the place of its instruction and the calls that lead there, up to the
//! run's end, its trap or the limit.
#![tactic(auto)]

mod scenes;
mod telling;
mod tracing;

pub use tracing::{TraceNames, trace_files};
