ghost use Rattle.std.specs.Prelude.{◌≡◌};
ghost use Rattle.air_kit.specs.MemoryValues.{memory_values};
ghost use Rattle.air_kit.specs.Places.{first_fault_of};
ghost use Rattle.air_kit.specs.Rows.{spot_at};

use crate::access::access_values;
use crate::word::word_values;
use air_kit::{Place, first_nonzero, or_next};
use chip_columns::MemoryView;
use vm_field::Felt;

/// The first entry of memory's table that is not 0 in a row, with its value: accesses stand in order, and each shows what the
/// one before it left.
pub fn first_fault<V: MemoryView>(place: &Place<'_, V>) -> Option<(u16, Felt)>
    ensures { result ≡ first_fault_of 1 (memory_values (spot_at V.cells place.now)) }
{
    let accesses = first_nonzero(&access_values(place), 1);
    let words = first_nonzero(&word_values(place), 10);
    or_next(accesses, words)
}
