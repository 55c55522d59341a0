//! Entries 1 to 9: kinds, flags, addresses and the order of the accesses.
ghost use Rattle.std.specs.Prelude.{◌≡◌, option_map};
ghost use Rattle.air_kit.specs.MemoryValues.{access_values, entry_1, entry_2, entry_3, entry_4, entry_5, entry_6, entry_7, entry_8, entry_9};
ghost use Rattle.air_kit.specs.Rows.{spot_at};

use crate::parts::order_step;
use air_kit::{Place, bit_value, only};
use chip_columns::MemoryView;
use vm_field::Felt;

// The kind is 0, 1 or 2.
#[tactic(auto, unfolding(air_kit::specs::MemoryValues::entry_1))]
fn entry_1<V: MemoryView>(row: &V) -> Felt
    ensures { result ≡ entry_1 (V.cells row.now) }
{
    row.kind() * (row.kind() - Felt::ONE) * (row.kind() - Felt::from_u32(2))
}

// The flags are bits, and not both are set.
fn entry_2<V: MemoryView>(row: &V) -> Felt
    ensures { result ≡ entry_2 (V.cells row.now) }
{
    bit_value(row.n0())
}

fn entry_3<V: MemoryView>(row: &V) -> Felt
    ensures { result ≡ entry_3 (V.cells row.now) }
{
    bit_value(row.n1())
}

fn entry_4<V: MemoryView>(row: &V) -> Felt
    ensures { result ≡ entry_4 (V.cells row.now) }
{
    row.n0() * row.n1()
}

// The address is the number of its limbs.
#[tactic(auto, unfolding(air_kit::specs::MemoryValues::entry_5))]
fn entry_5<V: MemoryView>(row: &V) -> Felt
    ensures { result ≡ entry_5 (V.cells row.now) }
{
    row.addr() - row.a0() - Felt::from_u32(65536) * row.a1()
}

// The first row's context is new.
fn entry_6<V: MemoryView>(first: bool, row: &V) -> Felt
    ensures { result ≡ entry_6 first (V.cells row.now) }
{
    only(first, Felt::ONE - row.n0())
}

// The context stays where it is not a new one.
fn entry_7<V: MemoryView>(x: &V, next: &Option<V>) -> Felt
    ensures { result ≡ entry_7 (V.cells x.now) (option_map V.cells next.now) }
{
    match next {
        Some(y) => (Felt::ONE - y.n0()) * (y.ctx() - x.ctx()),
        None => Felt::ZERO,
    }
}

// So does the address, where neither is new.
fn entry_8<V: MemoryView>(x: &V, next: &Option<V>) -> Felt
    ensures { result ≡ entry_8 (V.cells x.now) (option_map V.cells next.now) }
{
    match next {
        Some(y) => (Felt::ONE - y.n0()) * (Felt::ONE - y.n1()) * (y.addr() - x.addr()),
        None => Felt::ZERO,
    }
}

// The accesses stand in order.
fn entry_9<V: MemoryView>(x: &V, next: &Option<V>) -> Felt
    ensures { result ≡ entry_9 (V.cells x.now) (option_map V.cells next.now) }
{
    match next {
        Some(y) => order_step(x, y),
        None => Felt::ZERO,
    }
}

/// 1 to 9.
#[tactic(auto, unfolding(air_kit::specs::MemoryValues::access_values))]
pub(crate) fn access_values<V: MemoryView>(place: &Place<'_, V>) -> [Felt; 9]
    ensures { result ≡ access_values (spot_at V.cells place.now) }
{
    let (first, x, next) = (place.row == 0, &place.cur, &place.next);
    [
        entry_1(x),
        entry_2(x),
        entry_3(x),
        entry_4(x),
        entry_5(x),
        entry_6(first, x),
        entry_7(x, next),
        entry_8(x, next),
        entry_9(x, next),
    ]
}
