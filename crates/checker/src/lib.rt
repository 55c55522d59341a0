//! A trace is checked: it is accepted, or refused at its first fault, by table, row and number, or at the first bus that is apart
//! (docs/CONSTRAINTS.md).
#![tactic(auto)]

mod checking;
mod counting;
mod crossing;
mod fault_rows;
mod numbering;
mod parts;
mod refusal;
mod row_counts;
mod rows;
mod setting;

pub use air_kit::has_counts;
pub use bus_kit::Seed;
pub use checking::{Valid, check, check_buses};
pub use crossing::types_cross;
pub use fault_rows::{FaultRows, fault_row_laws, faults_by_row};
pub use refusal::Refused;
pub use row_counts::{RowCount, RowCounts, counts_by_row};
pub use rows::check_rows;
