use crate::hasher::StepTally;
use crate::tallies::Tallies;
use crate::tally::Tally;
use crate::tuple::{Tuple, Unequal};
use crate::values::ValueTally;

fn crosses<T: Send + Sync>() {}

/// Tuples and tallies may be sent to other threads and read by several.
pub fn types_cross() {
    crosses::<Tuple>();
    crosses::<Unequal>();
    crosses::<Tally<12>>();
    crosses::<StepTally>();
    crosses::<ValueTally>();
    crosses::<Tallies>();
}
