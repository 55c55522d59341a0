ghost use Rattle.std.specs.Prelude.{◌≡◌, ◌<◌, true, nat_lt, List, ℕ, length, Some, option_map, slice_index};
ghost use Rattle.rpo_hash.specs.Constants.{constants_of};
ghost use Rattle.vm_field.specs.Field.{felt_pow};
ghost use Rattle.vm_field.specs.Permutation.{before_roots, round_constants};
ghost use Rattle.vm_field.specs.Signs.{◌⊟◌};
ghost use Rattle.chip_columns.specs.HasherColumns.{state, x as state_element};
ghost use Rattle.air_kit.specs.HasherValues.{entry_18, round_values};
ghost use Rattle.air_kit.specs.Places.{family};

use chip_columns::HasherView;
use rpo_hash::{Params, before_roots};
use vm_field::{Felt, felt_at};

/// Entries 18 to 29, in the row at place k of its eight: the next row's seventh powers less the state before the roots of round
/// k. Comparing these needs no root.
pub(crate) fn round_values<V: HasherView>(
    params: &Params,
    k: usize,
    x: &V,
    next: &Option<V>,
) -> [Felt; 12]
    ensures { result ≡ round_values (nat_lt k 7) (round_constants (constants_of params.now) k)
        (V.cells x.now) (option_map V.cells next.now) }
{
    match next {
        Some(y) => {
            if k < 7 {
                powers_less(y, &before_roots(params, k, &state(x)))
            } else {
                [Felt::ZERO; 12]
            }
        }
        None => [Felt::ZERO; 12],
    }
}

#[tactic(auto, unfolding(chip_columns::specs::HasherColumns::state))]
fn state<V: HasherView>(x: &V) -> [Felt; 12]
    ensures { result ≡ state (V.cells x.now) }
{
    [
        x.x0(),
        x.x1(),
        x.x2(),
        x.x3(),
        x.x4(),
        x.x5(),
        x.x6(),
        x.x7(),
        x.x8(),
        x.x9(),
        x.x10(),
        x.x11(),
    ]
}

// The entries of round k, whose state before the roots is computed once for all twelve.
#[tactic(auto, unfolding(air_kit::specs::Places::family))]
fn powers_less<V: HasherView>(y: &V, before: &[Felt; 12]) -> [Felt; 12]
    ensures { result ≡ family 12 (λ j. felt_pow (state_element (V.cells y.now) j) 7 ⊟ slice_index before.now j) }
{
    [
        entry_18(0, y, before),
        entry_18(1, y, before),
        entry_18(2, y, before),
        entry_18(3, y, before),
        entry_18(4, y, before),
        entry_18(5, y, before),
        entry_18(6, y, before),
        entry_18(7, y, before),
        entry_18(8, y, before),
        entry_18(9, y, before),
        entry_18(10, y, before),
        entry_18(11, y, before),
    ]
}

// 18 to 29: inside the eight rows each row is the round behind the one before, here the row y behind one with this state before
// the roots.
fn entry_18<V: HasherView>(j: usize, y: &V, before: &[Felt; 12]) -> Felt
    requires { j < 12 }
    ensures value { result ≡ felt_pow (state_element (V.cells y.now) j) 7 ⊟ slice_index before.now j }
    ensures named { (constants row : List ℕ) → before.now ≡ before_roots constants (state row)
        → result ≡ entry_18 j true constants row (Some (V.cells y.now)) }
{
    seventh_power(y.x(j)) - felt_at(before, j)
}

fn seventh_power(x: Felt) -> Felt
    ensures { result ≡ felt_pow x 7 }
{
    let to_2 = x * x;
    let to_4 = to_2 * to_2;
    to_4 * to_2 * x
}
