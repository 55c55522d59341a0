ghost use Rattle.std.specs.Prelude.{◌≡◌, ◌<◌, ◌==◌, [], ◌∷◌, slice_index};
ghost use Rattle.vm_field.specs.Field.{felt_inv, prime};
ghost use Rattle.vm_field.specs.Signs.{◌⊟◌};
ghost use Rattle.vm_ops.specs.Codes.{is_ordinary_op};
ghost use Rattle.vm_ops.specs.Values.{bit_of};
ghost use Rattle.complete_rows.specs.Lines.{code_bit};

use crate::inverses::Inverses;
use machine_cycles::Visible;
use vm_field::Felt;
use vm_ops::{Op, is_ordinary, opcode};

// 1 where the test holds, else 0.
fn bit(test: bool) -> Felt
    ensures { result ≡ bit_of test }
{
    if test { Felt::ONE } else { Felt::ZERO }
}

// The element of a number below the prime.
pub(crate) fn felt_of(number: u64) -> Felt
    requires { number < prime }
    ensures { result ≡ number }
{
    Felt::reduced(u128::from(number))
}

// The columns of the state, up to the digest of the function that runs.
pub(crate) fn state_cells(seen: &Visible) -> [Felt; 8]
    ensures { result ≡ seen.now.clock ∷ seen.now.fmp ∷ seen.now.context ∷ bit_of seen.now.in_syscall
        ∷ slice_index seen.now.digest 0 ∷ slice_index seen.now.digest 1 ∷ slice_index seen.now.digest 2 ∷ slice_index seen.now.digest 3 ∷ [] }
{
    [
        Felt::from_u32(seen.clock),
        seen.fmp,
        Felt::from_u32(seen.context),
        bit(seen.in_syscall),
        seen.digest.at(0),
        seen.digest.at(1),
        seen.digest.at(2),
        seen.digest.at(3),
    ]
}

// The block's address and the bits of the operation's code.
pub(crate) fn block_cells(address: Felt, op: Op) -> [Felt; 8]
    ensures { result ≡ address ∷ code_bit op 0 ∷ code_bit op 1 ∷ code_bit op 2 ∷ code_bit op 3 ∷ code_bit op 4 ∷ code_bit op 5 ∷ code_bit op 6 ∷ [] }
{
    let code = opcode(op);
    [
        address,
        Felt::from_u32(u32::from(code % 2)),
        Felt::from_u32(u32::from(code / 2 % 2)),
        Felt::from_u32(u32::from(code / 4 % 2)),
        Felt::from_u32(u32::from(code / 8 % 2)),
        Felt::from_u32(u32::from(code / 16 % 2)),
        Felt::from_u32(u32::from(code / 32 % 2)),
        Felt::from_u32(u32::from(code / 64 % 2)),
    ]
}

// The columns of the group and of the batch.
pub(crate) fn group_cells(op: Op, left: Felt, place: Felt, in_use: usize) -> [Felt; 6]
    ensures { result ≡ bit_of (is_ordinary_op op) ∷ left ∷ place
        ∷ bit_of (in_use == 8) ∷ bit_of (in_use == 4) ∷ bit_of (in_use == 2) ∷ [] }
{
    [
        bit(is_ordinary(op)),
        left,
        place,
        bit(in_use == 8),
        bit(in_use == 4),
        bit(in_use == 2),
    ]
}

// The columns from the stack's depth to the level of nesting.
pub(crate) fn depth_cells(inverses: &mut Inverses, seen: &Visible, key: Felt, ha: Felt) -> [Felt; 5]
    requires { seen.now.depth < prime }
    ensures { result ≡ seen.now.depth ∷ key ∷ felt_inv (seen.now.depth ⊟ 16) ∷ ha ∷ seen.now.nesting ∷ [] }
{
    let depth = felt_of(seen.depth as u64);
    [
        depth,
        key,
        inverses.inverse(depth - Felt::from_u32(16)),
        ha,
        Felt::from_u32(seen.nesting),
    ]
}
