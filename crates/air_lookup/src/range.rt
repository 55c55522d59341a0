ghost use Rattle.std.specs.Prelude.{◌≡◌, option_map};
ghost use Rattle.air_kit.specs.Places.{first_fault_of};
ghost use Rattle.air_kit.specs.RangeValues.{entry_1, entry_2, entry_3, range_step, range_values};
ghost use Rattle.air_kit.specs.Rows.{spot_at};

use air_kit::{Place, first_nonzero, in_last, only};
use chip_columns::RangeView;
use vm_field::Felt;

// The step is 0 or a power of 3 below 2188.
#[tactic(auto, unfolding(air_kit::specs::RangeValues::range_step))]
fn range_step<V: RangeView>(x: &V, y: &V) -> Felt
    ensures { result ≡ range_step (V.cells x.now) (V.cells y.now) }
{
    let step = y.v() - x.v();
    step * (step - Felt::ONE)
        * (step - Felt::from_u32(3))
        * (step - Felt::from_u32(9))
        * (step - Felt::from_u32(27))
        * (step - Felt::from_u32(81))
        * (step - Felt::from_u32(243))
        * (step - Felt::from_u32(729))
        * (step - Felt::from_u32(2187))
}

// The first value is 0.
fn entry_1<V: RangeView>(row: u32, x: &V) -> Felt
    ensures { result ≡ entry_1 row (V.cells x.now) }
{
    only(row == 0, x.v())
}

// The last one is 65535.
fn entry_2<V: RangeView>(x: &V, next: &Option<V>) -> Felt
    ensures { result ≡ entry_2 (V.cells x.now) (option_map V.cells next.now) }
{
    in_last(x.v() - Felt::from_u32(65535), next)
}

// Each step is one of those.
fn entry_3<V: RangeView>(x: &V, next: &Option<V>) -> Felt
    ensures { result ≡ entry_3 (V.cells x.now) (option_map V.cells next.now) }
{
    match next {
        Some(y) => range_step(x, y),
        None => Felt::ZERO,
    }
}

/// The first entry of the range table that is not 0 in a row, with its value. The first value is 0, the last one 65535, and
/// each step between them is 0 or a power of 3 up to 2187.
#[tactic(auto, unfolding(air_kit::specs::RangeValues::range_values))]
pub fn first_fault_range<V: RangeView>(place: &Place<'_, V>) -> Option<(u16, Felt)>
    ensures { result ≡ first_fault_of 1 (range_values (spot_at V.cells place.now)) }
{
    let (row, x, next) = (place.row, &place.cur, &place.next);
    let values = [entry_1(row, x), entry_2(x, next), entry_3(x, next)];
    first_nonzero(&values, 1)
}
