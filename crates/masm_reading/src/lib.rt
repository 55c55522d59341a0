//! How a token of an assembly source is read as an instruction, with the constants defined before it.
#![tactic(auto)]

mod constant;
mod number;
mod reading;
mod refusal;

pub use constant::{Const, Consts};
pub use number::read_number;
pub use reading::{read_instr, read_parameter, read_parts, split, split_into};
pub use refusal::InstrError;
