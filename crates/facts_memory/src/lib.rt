//! Memory's table is the list of its accesses by context, address and clock: where its entries are 0, each access shows what the
//! accesses before its clock leave, and the rows of accesses that fit have entries 0 (docs/CONSTRAINTS.md). Laws; no code.
#![tactic(auto)]

mod laws;

pub use laws::table_laws;
