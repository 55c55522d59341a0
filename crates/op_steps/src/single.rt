ghost use Rattle.std.specs.Prelude.{◌≡◌, ◌≤◌, ℕ, List, [], ◌∷◌, true, false, length, Ok, MatchOption};
ghost use Rattle.vm_ops.specs.Values.{bit_of};
ghost use Rattle.vm_state.specs.Views.{state_of};
ghost use Rattle.vm_ops.specs.Stepping.{seen_at};
ghost use Rattle.op_steps.specs.Outcomes.{is_single, outcome};

use vm_field::Felt;
use vm_ops::{Item, Op};
use vm_state::State;

// 1 where the test holds, else 0.
fn bit(test: bool) -> Felt
    ensures { result ≡ bit_of test }
{
    if test { Felt::ONE } else { Felt::ZERO }
}

// The cell that an operation leaves, of one that leaves one cell of what the stack or the item
// holds and never traps. These are most of what programs do, so they have this short way.
#[tactic(auto, unfolding(crate::specs::Outcomes::outcome, vm_ops::specs::Step::left_cells, vm_ops::specs::Values::computed, vm_ops::specs::Values::trap_of))]
pub(crate) fn single(item: &Item, state: &State) -> Option<Felt>
    ensures is { (constants : List ℕ) → MatchOption result
        (is_single item.now.op ≡ false)
        (λ cell. (is_single item.now.op ≡ true)
        × (outcome item.now.op (seen_at constants item.now (state_of state.now)) ≡ Ok (cell ∷ []))) }
    ensures sixteen { 16 ≤ length state.now.stack }
{
    let _ = state.depth();
    let cells = state.visible();
    let (top, next) = (cells[0], cells[1]);
    match item.op {
        Op::Eqz => Some(bit(top == Felt::ZERO)),
        Op::Neg => Some(top.neg()),
        Op::Incr => Some(top.add(Felt::ONE)),
        Op::Eq => Some(bit(top == next)),
        Op::Add => Some(top.add(next)),
        Op::Mul => Some(top.mul(next)),
        Op::Pad => Some(Felt::ZERO),
        Op::Push => Some(item.imm.unwrap_or(Felt::ZERO)),
        Op::Dup0 => Some(cells[0]),
        Op::Dup1 => Some(cells[1]),
        Op::Dup2 => Some(cells[2]),
        Op::Dup3 => Some(cells[3]),
        Op::Dup4 => Some(cells[4]),
        Op::Dup5 => Some(cells[5]),
        Op::Dup6 => Some(cells[6]),
        Op::Dup7 => Some(cells[7]),
        Op::Dup9 => Some(cells[9]),
        Op::Dup11 => Some(cells[11]),
        Op::Dup13 => Some(cells[13]),
        Op::Dup15 => Some(cells[15]),
        _ => None,
    }
}
