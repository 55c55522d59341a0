//! Entries 1 to 16: eight rows an operation on 32 bits, four bits a row, the highest first.
ghost use Rattle.std.specs.Prelude.{◌≡◌, option_map};
ghost use Rattle.air_kit.specs.BitwiseValues.{bitwise_values_by, entry_1, entry_2, entry_3, entry_4, entry_5, entry_6, entry_7, entry_8, entry_9, entry_10, entry_11, entry_12, entry_13, entry_14, entry_15, entry_16};

use crate::nibbles::{nibble_a, nibble_b, nibble_z};
use air_kit::bit_value;
use chip_columns::BitwiseView;
use vm_field::Felt;

// The kind is a bit.
fn entry_1<V: BitwiseView>(row: &V) -> Felt
    ensures { result ≡ entry_1 (V.cells row.now) }
{
    bit_value(row.op())
}

// So are the bits of the first operand, the lowest first.
fn entry_2<V: BitwiseView>(row: &V) -> Felt
    ensures { result ≡ entry_2 (V.cells row.now) }
{
    bit_value(row.a0())
}

fn entry_3<V: BitwiseView>(row: &V) -> Felt
    ensures { result ≡ entry_3 (V.cells row.now) }
{
    bit_value(row.a1())
}

fn entry_4<V: BitwiseView>(row: &V) -> Felt
    ensures { result ≡ entry_4 (V.cells row.now) }
{
    bit_value(row.a2())
}

fn entry_5<V: BitwiseView>(row: &V) -> Felt
    ensures { result ≡ entry_5 (V.cells row.now) }
{
    bit_value(row.a3())
}

// And those of the second one.
fn entry_6<V: BitwiseView>(row: &V) -> Felt
    ensures { result ≡ entry_6 (V.cells row.now) }
{
    bit_value(row.b0())
}

fn entry_7<V: BitwiseView>(row: &V) -> Felt
    ensures { result ≡ entry_7 (V.cells row.now) }
{
    bit_value(row.b1())
}

fn entry_8<V: BitwiseView>(row: &V) -> Felt
    ensures { result ≡ entry_8 (V.cells row.now) }
{
    bit_value(row.b2())
}

fn entry_9<V: BitwiseView>(row: &V) -> Felt
    ensures { result ≡ entry_9 (V.cells row.now) }
{
    bit_value(row.b3())
}

// The first of eight rows has its own four bits.
fn entry_10<V: BitwiseView>(begins: bool, row: &V) -> Felt
    ensures { result ≡ entry_10 begins (V.cells row.now) }
{
    if begins {
        row.a() - nibble_a(row)
    } else {
        Felt::ZERO
    }
}

fn entry_11<V: BitwiseView>(begins: bool, row: &V) -> Felt
    ensures { result ≡ entry_11 begins (V.cells row.now) }
{
    if begins {
        row.b() - nibble_b(row)
    } else {
        Felt::ZERO
    }
}

fn entry_12<V: BitwiseView>(begins: bool, row: &V) -> Felt
    ensures { result ≡ entry_12 begins (V.cells row.now) }
{
    if begins {
        row.z() - nibble_z(row)
    } else {
        Felt::ZERO
    }
}

// Inside them the kind stays.
fn entry_13<V: BitwiseView>(inside: bool, row: &V, next: &Option<V>) -> Felt
    ensures { result ≡ entry_13 inside (V.cells row.now) (option_map V.cells next.now) }
{
    if inside {
        match next {
            Some(y) => y.op() - row.op(),
            None => Felt::ZERO,
        }
    } else {
        Felt::ZERO
    }
}

// And each further row has sixteen times the numbers before and its own four bits.
fn entry_14<V: BitwiseView>(inside: bool, row: &V, next: &Option<V>) -> Felt
    ensures { result ≡ entry_14 inside (V.cells row.now) (option_map V.cells next.now) }
{
    if inside {
        match next {
            Some(y) => y.a() - Felt::from_u32(16) * row.a() - nibble_a(y),
            None => Felt::ZERO,
        }
    } else {
        Felt::ZERO
    }
}

fn entry_15<V: BitwiseView>(inside: bool, row: &V, next: &Option<V>) -> Felt
    ensures { result ≡ entry_15 inside (V.cells row.now) (option_map V.cells next.now) }
{
    if inside {
        match next {
            Some(y) => y.b() - Felt::from_u32(16) * row.b() - nibble_b(y),
            None => Felt::ZERO,
        }
    } else {
        Felt::ZERO
    }
}

fn entry_16<V: BitwiseView>(inside: bool, row: &V, next: &Option<V>) -> Felt
    ensures { result ≡ entry_16 inside (V.cells row.now) (option_map V.cells next.now) }
{
    if inside {
        match next {
            Some(y) => y.z() - Felt::from_u32(16) * row.z() - nibble_z(y),
            None => Felt::ZERO,
        }
    } else {
        Felt::ZERO
    }
}

/// All entries, by whether the row is the first of its eight, and whether another one of them follows.
#[tactic(auto, unfolding(air_kit::specs::BitwiseValues::bitwise_values_by))]
pub(crate) fn bitwise_values_by<V: BitwiseView>(
    begins: bool,
    inside: bool,
    row: &V,
    next: &Option<V>,
) -> [Felt; 16]
    ensures { result ≡ bitwise_values_by begins inside (V.cells row.now) (option_map V.cells next.now) }
{
    [
        entry_1(row),
        entry_2(row),
        entry_3(row),
        entry_4(row),
        entry_5(row),
        entry_6(row),
        entry_7(row),
        entry_8(row),
        entry_9(row),
        entry_10(begins, row),
        entry_11(begins, row),
        entry_12(begins, row),
        entry_13(inside, row, next),
        entry_14(inside, row, next),
        entry_15(inside, row, next),
        entry_16(inside, row, next),
    ]
}
