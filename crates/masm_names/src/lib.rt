//! The names of a source's constants and procedures (docs/ASSEMBLY.md): their places, which of them
//! are refused, and the first of refusals.
#![tactic(auto)]

mod doubles;
mod exports;
mod names;
mod refusal;

pub use doubles::first_double;
pub use names::{Defined, Named, Names, procedure_names};
pub use refusal::{LinkCause, Refusal, cause_text, earlier, is_no_later};
