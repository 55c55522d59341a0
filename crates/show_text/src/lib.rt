//! What is told of a trace by the names of docs/CONSTRAINTS.md: its tables, the operations of its run, and rows cell by cell; and
//! evidence with the operations of its batches.
#![tactic(auto)]

mod beside;
mod counts;
mod evidence;
mod explain;
mod form;
mod keys;
mod rows;
mod run;
mod sides;

pub use beside::{append_accesses_beside, append_row_beside};
pub use counts::{append_row_count, append_rows_line, append_statement_count};
pub use evidence::{EvidenceError, told_evidence};
pub use explain::{append_fault, append_tuple};
pub use keys::{key_rows, table_by};
pub use rows::append_rows;
pub use run::run_text;
