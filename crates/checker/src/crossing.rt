use crate::checking::Valid;
use crate::fault_rows::FaultRows;
use crate::refusal::Refused;
use crate::row_counts::RowCounts;

fn crosses<T: Send + Sync>() {}

/// What the checker answers may be sent to other threads and read by several.
pub fn types_cross() {
    crosses::<Valid>();
    crosses::<Refused>();
    crosses::<RowCounts>();
    crosses::<FaultRows>();
}
