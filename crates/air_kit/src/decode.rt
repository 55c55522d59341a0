ghost use Rattle.std.specs.Prelude.{◌≡◌, ◌<◌, ◌↔◌, nat_lt, IsTrue};
ghost use Rattle.vm_table.specs.MainColumns.{b};
ghost use Rattle.air_kit.specs.Decoding.{IsDecoded, are_bits};
ghost use Rattle.air_kit.specs.Flags.{op_of, spelled, HasBits};

use vm_field::Felt;
use vm_ops::{Op, from_opcode};
use vm_table::MainView;

/// The number that a row's bits spell, where they are bits.
pub fn code_in<V: MainView>(row: &V) -> u8
    requires { HasBits (V.cells row.now) }
    ensures { result ≡ spelled 7 (b (V.cells row.now)) }
{
    let b0 = bit(row.b0());
    let b1 = bit(row.b1());
    let b2 = bit(row.b2());
    let b3 = bit(row.b3());
    let b4 = bit(row.b4());
    let b5 = bit(row.b5());
    let b6 = bit(row.b6());
    b0 + 2 * b1 + 4 * b2 + 8 * b3 + 16 * b4 + 32 * b5 + 64 * b6
}

fn bit(element: Felt) -> u8
    requires { element < 2 }
    ensures is { result ≡ element }
    ensures below { result < 2 }
{
    element.value() as u8
}

/// The operation of a row whose bits are bits.
#[tactic(auto, unfolding(crate::specs::Flags::op_of))]
pub fn op_in<V: MainView>(row: &V) -> Op
    requires { HasBits (V.cells row.now) }
    ensures { result ≡ op_of (V.cells row.now) }
{
    from_opcode(code_in(row)).unwrap_or(Op::Noop)
}

/// The operation that a row's bits spell; none where one of them is neither 0 nor 1, or they spell none.
pub fn op_spelled<V: MainView>(row: &V) -> Option<Op>
    ensures { IsDecoded (V.cells row.now) result }
{
    if has_bits(row) {
        from_opcode(code_in(row))
    } else {
        None
    }
}

/// Whether a row's bits are bits.
pub fn has_bits<V: MainView>(row: &V) -> bool
    ensures { IsTrue result ↔ HasBits (V.cells row.now) }
{
    are_bits(row)
}

fn are_bits<V: MainView>(row: &V) -> bool
    ensures { result ≡ are_bits (V.cells row.now) }
{
    is_bit(row.b0())
        && is_bit(row.b1())
        && is_bit(row.b2())
        && is_bit(row.b3())
        && is_bit(row.b4())
        && is_bit(row.b5())
        && is_bit(row.b6())
}

fn is_bit(element: Felt) -> bool
    ensures { result ≡ nat_lt element 2 }
{
    element.value() < 2
}
