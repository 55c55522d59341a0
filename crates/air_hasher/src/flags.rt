//! Entries 1 to 17: the flags, where they may change, the capacity that a hash begins with, and the one that it keeps.
ghost use Rattle.std.specs.Prelude.{◌≡◌, ◌==◌, ◌%◌, ◌<◌, nat_lt, option_map};
ghost use Rattle.air_kit.specs.HasherValues.{begins_at_zero, capacity_change, chain_values, cont_change, cont_promise, entry_1, entry_2, entry_3, entry_4, entry_5, entry_6, entry_7, entry_8, entry_9, entry_10, entry_11, entry_12, entry_13, entry_14, hasher_flag_values, mode_change};

use air_kit::{bit_value, in_last, only};
use chip_columns::HasherView;
use vm_field::Felt;

// The next row's mode, and the next row's cont, less this row's.
fn mode_change<V: HasherView>(row: &V, next: &Option<V>) -> Felt
    ensures { result ≡ mode_change (V.cells row.now) (option_map V.cells next.now) }
{
    match next {
        Some(y) => y.mode() - row.mode(),
        None => Felt::ZERO,
    }
}

fn cont_change<V: HasherView>(row: &V, next: &Option<V>) -> Felt
    ensures { result ≡ cont_change (V.cells row.now) (option_map V.cells next.now) }
{
    match next {
        Some(y) => y.cont() - row.cont(),
        None => Felt::ZERO,
    }
}

// The next permutation goes on with a hash exactly where this one says so.
fn cont_promise<V: HasherView>(row: &V, next: &Option<V>) -> Felt
    ensures { result ≡ cont_promise (V.cells row.now) (option_map V.cells next.now) }
{
    match next {
        Some(y) => y.cont() - row.more(),
        None => Felt::ZERO,
    }
}

// A hash begins with zeros in the capacity, but for its domain: element j.
#[tactic(auto, unfolding(air_kit::specs::HasherValues::begins_at_zero))]
fn begins_at_zero<V: HasherView>(row: &V, j: usize) -> Felt
    requires { j < 12 }
    ensures { result ≡ begins_at_zero (V.cells row.now) j }
{
    (Felt::ONE - row.mode()) * (Felt::ONE - row.cont()) * row.x(j)
}

// A hash that goes on keeps element j.
fn capacity_change<V: HasherView>(row: &V, next: &Option<V>, j: usize) -> Felt
    requires { j < 12 }
    ensures { result ≡ capacity_change (V.cells row.now) (option_map V.cells next.now) j }
{
    match next {
        Some(y) => row.more() * (y.x(j) - row.x(j)),
        None => Felt::ZERO,
    }
}

// mode, cont and more are bits.
fn entry_1<V: HasherView>(row: &V) -> Felt
    ensures { result ≡ entry_1 (V.cells row.now) }
{
    bit_value(row.mode())
}

fn entry_2<V: HasherView>(row: &V) -> Felt
    ensures { result ≡ entry_2 (V.cells row.now) }
{
    bit_value(row.cont())
}

fn entry_3<V: HasherView>(row: &V) -> Felt
    ensures { result ≡ entry_3 (V.cells row.now) }
{
    bit_value(row.more())
}

// A single permutation is no part of a longer hash.
fn entry_4<V: HasherView>(row: &V) -> Felt
    ensures { result ≡ entry_4 (V.cells row.now) }
{
    row.mode() * (row.cont() + row.more())
}

// The first row goes on with no hash, and behind the last row none goes on.
fn entry_5<V: HasherView>(first: bool, row: &V) -> Felt
    ensures { result ≡ entry_5 first (V.cells row.now) }
{
    only(first, row.cont())
}

fn entry_6<V: HasherView>(row: &V, next: &Option<V>) -> Felt
    ensures { result ≡ entry_6 (V.cells row.now) (option_map V.cells next.now) }
{
    in_last(row.more(), next)
}

// Inside the eight rows nothing is promised, and the flags stay.
fn entry_7<V: HasherView>(inside: bool, row: &V) -> Felt
    ensures { result ≡ entry_7 inside (V.cells row.now) }
{
    only(inside, row.more())
}

fn entry_8<V: HasherView>(inside: bool, row: &V, next: &Option<V>) -> Felt
    ensures { result ≡ entry_8 inside (V.cells row.now) (option_map V.cells next.now) }
{
    only(inside, mode_change(row, next))
}

fn entry_9<V: HasherView>(inside: bool, row: &V, next: &Option<V>) -> Felt
    ensures { result ≡ entry_9 inside (V.cells row.now) (option_map V.cells next.now) }
{
    only(inside, cont_change(row, next))
}

// At their end the promise is kept.
fn entry_10<V: HasherView>(ends: bool, row: &V, next: &Option<V>) -> Felt
    ensures { result ≡ entry_10 ends (V.cells row.now) (option_map V.cells next.now) }
{
    only(ends, cont_promise(row, next))
}

// At their beginning the capacity is that of a new hash.
fn entry_11<V: HasherView>(begins: bool, row: &V) -> Felt
    ensures { result ≡ entry_11 begins (V.cells row.now) }
{
    only(begins, begins_at_zero(row, 0))
}

fn entry_12<V: HasherView>(begins: bool, row: &V) -> Felt
    ensures { result ≡ entry_12 begins (V.cells row.now) }
{
    only(begins, begins_at_zero(row, 2))
}

fn entry_13<V: HasherView>(begins: bool, row: &V) -> Felt
    ensures { result ≡ entry_13 begins (V.cells row.now) }
{
    only(begins, begins_at_zero(row, 3))
}

// 14 to 17: at their end a hash that goes on keeps its capacity.
fn entry_14<V: HasherView>(j: usize, ends: bool, row: &V, next: &Option<V>) -> Felt
    requires { j < 4 }
    ensures { result ≡ entry_14 j ends (V.cells row.now) (option_map V.cells next.now) }
{
    only(ends, capacity_change(row, next, j))
}

/// 1 to 13, in the row of this number.
#[tactic(auto, unfolding(air_kit::specs::HasherValues::hasher_flag_values))]
pub(crate) fn flag_values<V: HasherView>(number: u32, row: &V, next: &Option<V>) -> [Felt; 13]
    ensures { result ≡ hasher_flag_values (number == 0) (number % 8 == 0) (nat_lt (number % 8) 7) (number % 8 == 7)
        (V.cells row.now) (option_map V.cells next.now) }
{
    let k = number % 8;
    let (first, begins, inside, ends) = (number == 0, k == 0, k < 7, k == 7);
    [
        entry_1(row),
        entry_2(row),
        entry_3(row),
        entry_4(row),
        entry_5(first, row),
        entry_6(row, next),
        entry_7(inside, row),
        entry_8(inside, row, next),
        entry_9(inside, row, next),
        entry_10(ends, row, next),
        entry_11(begins, row),
        entry_12(begins, row),
        entry_13(begins, row),
    ]
}

/// 14 to 17.
#[tactic(auto, unfolding(air_kit::specs::HasherValues::chain_values, air_kit::specs::Places::family))]
pub(crate) fn chain_values<V: HasherView>(ends: bool, row: &V, next: &Option<V>) -> [Felt; 4]
    ensures { result ≡ chain_values ends (V.cells row.now) (option_map V.cells next.now) }
{
    [
        entry_14(0, ends, row, next),
        entry_14(1, ends, row, next),
        entry_14(2, ends, row, next),
        entry_14(3, ends, row, next),
    ]
}
