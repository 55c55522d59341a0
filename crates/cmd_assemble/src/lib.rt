//! The command `assemble`: a program's digest and its kernel's exports, or the first refusal.
#![tactic(auto)]

mod assembly;

pub use assembly::assemble_files;
