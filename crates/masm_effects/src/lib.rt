//! Each instruction's list of operations does what the instruction means, by itself and in a span of a tree. Laws; no code.
#![tactic(auto)]

mod instructions;
mod spans;

pub use instructions::effect_laws;
pub use spans::span_laws;
