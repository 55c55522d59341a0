//! The grammar of assembly sources (docs/ASSEMBLY.md): from tokens to a syntax tree, or to the first
//! refusal. The definitions stand in `specs/`.
#![tactic(auto)]

mod configuration;
mod laws;
mod parser;
mod parsing;
mod refusal;

pub use laws::{least_refusal, locals_fit, trees_are_in_form, trees_are_in_order};
pub use parsing::parse;
pub use refusal::ParseError;
