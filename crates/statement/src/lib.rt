//! The texts that stand beside a table file: inputs and statements as JSON, read by their grammar and written in one spelling, and
//! evidence as it is written (docs/FORMATS.md).
#![tactic(auto)]

mod evidence;
mod inputs;
mod refusal;
mod statements;
mod values;

pub use evidence::{append_run, write_evidence};
pub use inputs::{read_inputs, write_inputs};
pub use refusal::{TextCause, TextError, cause_text};
pub use statements::{read_statement, write_statement};
