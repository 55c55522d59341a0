//! What the constraints speak of: the trace, how many rows its tables may have, the place of a row, faults, and, in `specs/`,
//! each entry, each bus and what an accepted trace is (docs/CONSTRAINTS.md).
#![tactic(auto)]

mod chips;
mod compare;
mod counts;
mod decode;
mod deep;
mod fault;
mod flags;
mod laws;
mod place;
mod requests;
mod seen;
mod sets;
mod trace;

pub use chips::{bit_value, in_last, only};
pub use compare::{are_same, is_one, is_zero};
pub use counts::{has_counts, may_have};
pub use decode::{code_in, has_bits, op_in, op_spelled};
pub use deep::{deep_inputs, input_key};
pub use fault::{Fault, first_nonzero, or_next};
pub use laws::{count_laws, number_laws};
pub use place::Place;
pub use requests::{Access, BitOp, Perm, Requests};
pub use seen::Seen;
pub use sets::{OpSet, is_left};
pub use trace::{Public, TableName, Trace, table_text, types_cross};
