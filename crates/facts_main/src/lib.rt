//! What the main table's entries say where they are 0, in words and both ways: of a row, of the row behind it, of a whole table
//! (docs/CONSTRAINTS.md). Laws; no code.
#![tactic(auto)]

mod laws;

pub use laws::{
    batch_laws, clock_laws, decoder_laws, dyn_laws, limb_laws, operation_laws, part_laws,
    reading_laws, stack_laws, table_laws, trace_laws,
};
