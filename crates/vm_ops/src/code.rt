ghost use Rattle.std.specs.Prelude.{◌≡◌, ◌<◌, slice_get};
ghost use Rattle.vm_ops.specs.Codes.{code_of, op_at, text_of_op};

use crate::op::Op;
use crate::table::{EVERY_OP, row_of};

/// The operation's code.
#[tactic(auto, using(crate::proofs::CodeLemmas::code_bounds))]
pub fn opcode(op: Op) -> u8
    ensures is { result ≡ code_of op }
    ensures below { result < 81 }
{
    row_of(op).code
}

/// The operation of a code, or none exactly where the code is outside the table.
#[tactic(auto, unfolding(crate::specs::Codes::op_at, crate::specs::Codes::every_op))]
pub fn from_opcode(code: u8) -> Option<Op>
    ensures is { result ≡ op_at code }
{
    op_in(&EVERY_OP, usize::from(code))
}

fn op_in(ops: &[Op], place: usize) -> Option<Op>
    ensures { result ≡ slice_get ops.now place }
{
    ops.get(place).copied()
}

/// The operation's name, in capital letters and digits.
pub fn text(op: Op) -> &'static str
    ensures { result.now ≡ text_of_op op }
{
    row_of(op).text
}
