ghost use Rattle.std.specs.Prelude.{◌≡◌, ◌==◌, ◌%◌, nat_lt, option_map};
ghost use Rattle.air_kit.specs.BitwiseValues.{bitwise_values, bitwise_values_by};
ghost use Rattle.air_kit.specs.Places.{first_fault_of};
ghost use Rattle.air_kit.specs.Rows.{spot_at};

use crate::entries::bitwise_values_by;
use air_kit::{Place, first_nonzero};
use chip_columns::BitwiseView;
use vm_field::Felt;

/// The first entry of the bitwise table that is not 0 in a row, with its value.
#[tactic(auto, unfolding(air_kit::specs::BitwiseValues::bitwise_values))]
pub fn first_fault<V: BitwiseView>(place: &Place<'_, V>) -> Option<(u16, Felt)>
    ensures { result ≡ first_fault_of 1 (bitwise_values (spot_at V.cells place.now)) }
{
    let k = place.row % 8;
    let values = bitwise_values_by(k == 0, k < 7, &place.cur, &place.next);
    first_nonzero(&values, 1)
}
