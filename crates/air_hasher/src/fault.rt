ghost use Rattle.std.specs.Prelude.{◌≡◌};
ghost use Rattle.air_kit.specs.HasherValues.{hasher_values};
ghost use Rattle.air_kit.specs.Places.{first_fault_of};
ghost use Rattle.air_kit.specs.Rows.{claim_at, spot_at};

use crate::flags::{chain_values, flag_values};
use crate::round::round_values;
use air_kit::{Place, first_nonzero, or_next};
use chip_columns::HasherView;
use vm_field::Felt;

/// The first entry of the hasher table that is not 0 in a row, with its value.
pub fn first_fault<V: HasherView>(place: &Place<'_, V>) -> Option<(u16, Felt)>
    ensures { result ≡ first_fault_of 1 (hasher_values (claim_at place.now) (spot_at V.cells place.now)) }
{
    let (row, x, next) = (place.row, &place.cur, &place.next);
    let k = row % 8;
    let flags = first_nonzero(&flag_values(row, x, next), 1);
    let chain = first_nonzero(&chain_values(k == 7, x, next), 14);
    let round = first_nonzero(&round_values(&place.public.params, k as usize, x, next), 18);
    or_next(flags, or_next(chain, round))
}
