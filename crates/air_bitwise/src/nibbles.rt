ghost use Rattle.std.specs.Prelude.{◌≡◌};
ghost use Rattle.air_kit.specs.BitwiseValues.{bit_result, nibble_a, nibble_b, nibble_z};

use chip_columns::BitwiseView;
use vm_field::Felt;

/// The row's four bits of the first operand, as a number.
#[tactic(auto, unfolding(air_kit::specs::BitwiseValues::nibble_a))]
pub(crate) fn nibble_a<V: BitwiseView>(row: &V) -> Felt
    ensures { result ≡ nibble_a (V.cells row.now) }
{
    row.a0()
        + Felt::from_u32(2) * row.a1()
        + Felt::from_u32(4) * row.a2()
        + Felt::from_u32(8) * row.a3()
}

/// Those of the second operand.
#[tactic(auto, unfolding(air_kit::specs::BitwiseValues::nibble_b))]
pub(crate) fn nibble_b<V: BitwiseView>(row: &V) -> Felt
    ensures { result ≡ nibble_b (V.cells row.now) }
{
    row.b0()
        + Felt::from_u32(2) * row.b1()
        + Felt::from_u32(4) * row.b2()
        + Felt::from_u32(8) * row.b3()
}

// The result of two bits: their product, or the exclusive or.
#[tactic(auto, unfolding(air_kit::specs::BitwiseValues::bit_result))]
fn bit_result(kind: Felt, p: Felt, q: Felt) -> Felt
    ensures { result ≡ bit_result kind p q }
{
    p * q + kind * (p + q - Felt::from_u32(3) * (p * q))
}

/// The four bits of the result.
#[tactic(auto, unfolding(air_kit::specs::BitwiseValues::nibble_z))]
pub(crate) fn nibble_z<V: BitwiseView>(row: &V) -> Felt
    ensures { result ≡ nibble_z (V.cells row.now) }
{
    bit_result(row.op(), row.a0(), row.b0())
        + Felt::from_u32(2) * bit_result(row.op(), row.a1(), row.b1())
        + Felt::from_u32(4) * bit_result(row.op(), row.a2(), row.b2())
        + Felt::from_u32(8) * bit_result(row.op(), row.a3(), row.b3())
}
