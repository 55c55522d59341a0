ghost use Rattle.std.specs.Prelude.{◌≡◌, false, length, IfOk};
ghost use Rattle.vm_ops.specs.Moves.{leaves_of};
ghost use Rattle.op_steps.specs.Outcomes.{outcome, reads_more, showing};

use crate::bits::{and, assert_one, inverse, not, or, swap_cells, swap_words};
use crate::cells::Cells;
use crate::moves::moved;
use crate::words::{
    two_words, u32_add, u32_add3, u32_and, u32_assert2, u32_div, u32_madd, u32_mul, u32_sub,
    u32_xor,
};
use vm_field::Felt;
use vm_ops::{Cause, Op};

// The cells that an operation leaves on top, of one that reads cells of the stack only.
#[tactic(auto, unfolding(crate::specs::Outcomes::outcome, vm_ops::specs::Step::left_cells, vm_ops::specs::Values::computed, vm_ops::specs::Values::trap_of))]
pub(crate) fn on_stack(op: Op, cells: &[Felt; 16]) -> Result<Cells, Cause>
    requires { reads_more op ≡ false }
    ensures is { result ≡ outcome op (showing cells.now) }
    ensures count { IfOk result (λ left. length left ≡ leaves_of op) }
{
    match op {
        Op::Eqz => Ok(Cells::bit(cells[0] == Felt::ZERO)),
        Op::Neg => Ok(Cells::one(cells[0].neg())),
        Op::Inv => inverse(cells),
        Op::Incr => Ok(Cells::one(cells[0].add(Felt::ONE))),
        Op::Not => not(cells),
        Op::Assert => assert_one(cells),
        Op::Eq => Ok(Cells::bit(cells[0] == cells[1])),
        Op::Add => Ok(Cells::one(cells[0].add(cells[1]))),
        Op::Mul => Ok(Cells::one(cells[0].mul(cells[1]))),
        Op::And => and(cells),
        Op::Or => or(cells),
        Op::CSwap => swap_cells(cells),
        Op::CSwapW => swap_words(cells),
        Op::Pad => Ok(Cells::one(Felt::ZERO)),
        Op::U32Add => u32_add(cells),
        Op::U32Sub => u32_sub(cells),
        Op::U32Mul => u32_mul(cells),
        Op::U32Div => u32_div(cells),
        Op::U32Assert2 => u32_assert2(cells),
        Op::U32And => u32_and(cells),
        Op::U32Xor => u32_xor(cells),
        Op::U32Add3 => u32_add3(cells),
        Op::U32MAdd => u32_madd(cells),
        Op::U32Split => Ok(two_words(cells[0].value())),
        _ => Ok(moved(op, cells)),
    }
}
