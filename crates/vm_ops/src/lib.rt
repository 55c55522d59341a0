//! The machine's operations: their codes and names, the items of an operation list, the causes of
//! traps, and, in `specs/`, the step of the machine.
#![tactic(auto)]

mod cause;
mod classes;
mod code;
mod item;
mod kind;
mod laws;
mod moves;
mod op;
mod table;

pub use cause::{Cause, cause_text};
pub use classes::{accesses_memory, is_ordinary, is_start, kind_of, takes_advice, writes_memory};
pub use code::{from_opcode, opcode, text};
pub use item::{Item, Items};
pub use kind::Kind;
pub use laws::{code_laws, frame_laws, run_laws, step_laws, types_cross, value_laws};
pub use moves::{advice, leaves, shift, sources, takes};
pub use op::{Op, Shift};
