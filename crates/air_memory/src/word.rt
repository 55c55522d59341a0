//! Entries 10 to 17: what an access does not write is as it was, which is zero, or the word of the row before.
ghost use Rattle.std.specs.Prelude.{◌≡◌, ◌<◌, option_map};
ghost use Rattle.air_kit.specs.MemoryValues.{entry_10, entry_11, entry_14, entry_15, word_values};
ghost use Rattle.air_kit.specs.Rows.{spot_at};

use crate::parts::{element_change, kept_factor, read_factor};
use air_kit::{Place, only};
use chip_columns::MemoryView;
use vm_field::Felt;

// In the first row element 0 is 0 where it is not written.
fn entry_10<V: MemoryView>(first: bool, row: &V) -> Felt
    ensures { result ≡ entry_10 first (V.cells row.now) }
{
    only(first, read_factor(row) * row.v(0))
}

// 11 to 13: so is element j + 1.
fn entry_11<V: MemoryView>(j: usize, first: bool, row: &V) -> Felt
    requires { j < 3 }
    ensures { result ≡ entry_11 j first (V.cells row.now) }
{
    only(first, kept_factor(row) * row.v(j + 1))
}

// In a further row element 0 is as it was where it is not written.
fn entry_14<V: MemoryView>(x: &V, next: &Option<V>) -> Felt
    ensures { result ≡ entry_14 (V.cells x.now) (option_map V.cells next.now) }
{
    match next {
        Some(y) => read_factor(y) * element_change(x, y, 0),
        None => Felt::ZERO,
    }
}

// 15 to 17: so is element j + 1.
fn entry_15<V: MemoryView>(j: usize, x: &V, next: &Option<V>) -> Felt
    requires { j < 3 }
    ensures { result ≡ entry_15 j (V.cells x.now) (option_map V.cells next.now) }
{
    match next {
        Some(y) => kept_factor(y) * element_change(x, y, j + 1),
        None => Felt::ZERO,
    }
}

/// 10 to 17.
#[tactic(auto, unfolding(air_kit::specs::MemoryValues::word_values, air_kit::specs::Places::family))]
pub(crate) fn word_values<V: MemoryView>(place: &Place<'_, V>) -> [Felt; 8]
    ensures { result ≡ word_values (spot_at V.cells place.now) }
{
    let (first, x, next) = (place.row == 0, &place.cur, &place.next);
    [
        entry_10(first, x),
        entry_11(0, first, x),
        entry_11(1, first, x),
        entry_11(2, first, x),
        entry_14(x, next),
        entry_15(0, x, next),
        entry_15(1, x, next),
        entry_15(2, x, next),
    ]
}
