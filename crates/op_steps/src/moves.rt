ghost use Rattle.std.specs.Prelude.{◌≡◌, length, map, slice_index};
ghost use Rattle.vm_ops.specs.Moves.{sources_of};
ghost use Rattle.op_steps.specs.Outcomes.{is_move};

use crate::cells::Cells;
use vm_field::{Felt, felt_at};
use vm_ops::{Op, sources};

// The cells that an operation moves, of these.
pub(crate) fn moved(op: Op, cells: &[Felt; 16]) -> Cells
    ensures is { result ≡ map (slice_index cells.now) (sources_of op) }
    ensures count { length result ≡ length (sources_of op) }
{
    let sources = sources(op);
    let mut copies = [Felt::ZERO; 16];
    for i in 0..sources.len() {
        copies[i] = felt_at(cells, sources[i]);
    }
    Cells::first_of(copies, sources.len())
}

// Whether the operation only moves cells of the stack, or takes one off.
pub(crate) fn is_move(op: Op) -> bool
    ensures { result ≡ is_move op }
{
    match op {
        Op::Noop | Op::Swap | Op::Drop => true,
        Op::MovUp2 | Op::MovUp3 | Op::MovUp4 | Op::MovUp5 => true,
        Op::MovUp6 | Op::MovUp7 | Op::MovUp8 => true,
        Op::MovDn2 | Op::MovDn3 | Op::MovDn4 | Op::MovDn5 => true,
        Op::MovDn6 | Op::MovDn7 | Op::MovDn8 => true,
        Op::SwapW | Op::SwapW2 | Op::SwapW3 | Op::SwapDW => true,
        _ => false,
    }
}
