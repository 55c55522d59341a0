//! Assembling: from sources to programs (docs/ASSEMBLY.md).
#![tactic(auto)]

mod assembling;
mod laws;
mod library;
mod linking;
mod program;
mod reading;
mod refusal;

pub use assembling::{assemble, assemble_with};
pub use laws::{assembled_trees, library_laws, one_program, one_refusal, types_cross};
pub use library::{Library, with_library};
pub use reading::read;
pub use refusal::{AsmCause, AsmError, cause_text};
