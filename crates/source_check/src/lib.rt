//! From the evidence of a trace and a program to evidence that this very program ran: its tree takes the place of what the rows did not
//! show, or two hashes of different inputs have one digest (docs/PROOF.md).
#![tactic(auto)]

mod checking;
mod comparing;
mod evidence;
mod laws;
mod numbering;
mod sourced;
mod text;

pub use checking::check_source;
pub use evidence::{SourceEvidence, SourceStop};
pub use laws::source_laws;
pub use text::{append_clash_of_file, append_clash_of_node, write_source_evidence};
