ghost use Rattle.std.specs.Prelude.{◌≡◌, slice_index};
ghost use Rattle.fill_requests.specs.Parts.{four_of};
ghost use Rattle.complete_rows.specs.Witnesses.{batch_witnesses, difference, first_inverse, first_witness, operation_witnesses, upper_half};

use crate::inverses::Inverses;
use machine_cycles::Visible;
use op_pack::in_use;
use vm_field::Felt;
use vm_ops::{Op, opcode};

// The second half of the positions in use of a batch.
fn upper_half(batch: &[Felt; 8]) -> &[Felt]
    ensures { result.now ≡ upper_half batch.now }
{
    let half = in_use(batch) / 2;
    let elements = &batch[..];
    let behind = &elements[half..];
    &behind[..half]
}

// What stands at a place where the first element that is not 0 gives way to its inverse, and those
// behind it to 0.
fn inverse_at(inverses: &mut Inverses, elements: &[Felt], place: usize) -> Felt
    ensures { result ≡ slice_index (first_inverse elements.now) place }
{
    match elements {
        [] => Felt::ZERO,
        [first, later @ ..] => {
            if first.value() == 0 {
                if place == 0 {
                    Felt::ZERO
                } else {
                    inverse_at(inverses, later, place - 1)
                }
            } else if place == 0 {
                inverses.inverse(*first)
            } else {
                Felt::ZERO
            }
        }
    }
}

// The witnesses of a row that begins a batch.
pub(crate) fn batch_witnesses(inverses: &mut Inverses, batch: &[Felt; 8]) -> [Felt; 4]
    ensures { result ≡ four_of (batch_witnesses batch.now) }
{
    let upper = upper_half(batch);
    [
        inverse_at(inverses, upper, 0),
        inverse_at(inverses, upper, 1),
        inverse_at(inverses, upper, 2),
        inverse_at(inverses, upper, 3),
    ]
}

// What a row shows to be not 0.
fn difference(op: Op, seen: &Visible, next: &Visible) -> Felt
    ensures { result ≡ difference op seen.now next.now }
{
    match op {
        Op::Eqz => seen.cells[0],
        Op::Eq => seen.cells[0] - seen.cells[1],
        Op::U32Split | Op::U32Mul | Op::U32MAdd => Felt::from_u32(4294967295) - next.cells[0],
        _ => Felt::ZERO,
    }
}

// The first witness of an operation, before the hasher address of the next permutation.
fn first_witness(
    inverses: &mut Inverses,
    op: Op,
    address: Felt,
    seen: &Visible,
    next: &Visible,
) -> Felt
    ensures { result ≡ first_witness op address seen.now next.now }
{
    match op {
        Op::HPerm => address,
        _ => inverses.inverse(difference(op, seen, next)),
    }
}

// The witnesses of an operation with which the group has a number left.
#[tactic(auto, unfolding(complete_rows::specs::Witnesses::operation_witnesses))]
pub(crate) fn operation_witnesses(
    inverses: &mut Inverses,
    op: Op,
    address: Felt,
    number: Felt,
    seen: &Visible,
    next: &Visible,
) -> [Felt; 4]
    ensures { result ≡ operation_witnesses op address number seen.now next.now }
{
    [
        first_witness(inverses, op, address, seen, next),
        Felt::ZERO,
        Felt::ZERO,
        inverses.inverse(number - Felt::from_u32(u32::from(opcode(op)))),
    ]
}
