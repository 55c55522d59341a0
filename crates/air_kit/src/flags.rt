ghost use Rattle.std.specs.Prelude.{◌≡◌};
ghost use Rattle.air_kit.specs.Decoding.{bit_list, bit_product};
ghost use Rattle.air_kit.specs.Flags.{flag};

use vm_field::Felt;
use vm_ops::{Op, opcode};
use vm_table::MainView;

/// The product over these bits by the digits of a code.
#[tactic(auto, unfolding(crate::specs::Decoding::bit_product))]
fn product(code: u8, bits: &[Felt]) -> Felt
    ensures { result ≡ bit_product code bits.now }
{
    match bits {
        [] => Felt::ONE,
        [bit, rest @ ..] => {
            let factor = if code % 2 == 1 {
                *bit
            } else {
                Felt::ONE - *bit
            };
            factor * product(code / 2, rest)
        }
    }
}

/// The flag of an operation in a row, whatever its bits are.
#[tactic(auto, unfolding(crate::specs::Flags::flag, crate::specs::Flags::flag_by, crate::specs::Decoding::bit_product))]
pub(crate) fn flag_in<V: MainView>(row: &V, op: Op) -> Felt
    ensures { result ≡ flag (V.cells row.now) op }
{
    product(opcode(op), &bits_of(row))
}

/// The bits of a row's operation, lowest first.
fn bits_of<V: MainView>(row: &V) -> [Felt; 7]
    ensures { result ≡ bit_list (V.cells row.now) }
{
    [
        row.b0(),
        row.b1(),
        row.b2(),
        row.b3(),
        row.b4(),
        row.b5(),
        row.b6(),
    ]
}
