//! The two files of a run, its tables and its statement, and that the one is accepted for the other (docs/PROOF.md, "What was run is
//! accepted").
#![tactic(auto)]

mod claim;
mod laws;
mod tables;
mod tracing;

pub use claim::{statement_file_of_run, statement_of_run};
pub use laws::file_laws;
pub use tables::{FILL_PIECES, trace_of_run};
pub use tracing::RunEnd;
