ghost use Rattle.std.specs.Prelude.{◌≡◌, ◌≢◌, ◌≤◌, ◌↔◌, ℕ, List, IsTrue, Ok};
ghost use Rattle.vm_field.specs.Limits.{most_cycles};
ghost use Rattle.rpo_hash.specs.Constants.{constants_of};
ghost use Rattle.vm_ops.specs.Items.{IsOrdinaryItem};
ghost use Rattle.vm_ops.specs.Moves.{shift_of};
ghost use Rattle.vm_ops.specs.Step.{seen, step};
ghost use Rattle.vm_ops.specs.Values.{fmp_after};
ghost use Rattle.vm_ops.specs.declared.item.Item.{Item};
ghost use Rattle.vm_ops.specs.declared.op.Op.TheVariants as ops;
ghost use Rattle.vm_state.specs.Views.{core_of, state_of};
ghost use Rattle.op_steps.specs.Steps.{IsQuiet, AnswersStep, AnswersQuietStep};

use crate::left::{cells_behind, hashed_state, left_cells, top_cells};
use crate::moves::{is_move, moved};
use crate::place::settle;
use crate::refusal::StepStop;
use crate::single::single;
use crate::storing::step_storing;
use perm_memo::Permutations;
use rpo_hash::Params;
use std::alloc::Global;
use vm_field::Felt;
use vm_ops::{Cause, Item, Op, Shift, shift, writes_memory};
use vm_state::State;

/// One cycle of an ordinary operation. The clock grows by one. At a trap and at `Memory` the state
/// is as before.
pub fn step(alloc: Global, params: &Params, item: &Item, state: &mut State) -> Result<(), StepStop>
    requires item { IsOrdinaryItem item.now }
    requires clock { state.old.clock ≤ most_cycles }
    ensures { AnswersStep (step (constants_of params.now) item.now (state_of state.old)) result (state_of state.old) (state_of state.new) }
{
    if shift(item.op) == Shift::Right {
        step_growing(params, item, state)
    } else if writes_memory(item.op) {
        step_storing(item, state)
    } else {
        step_quiet(params, item, state).map_err(StepStop::Trap)
    }
}

/// Whether the operation's step takes no memory of the system: it neither shifts the stack to the
/// right nor writes the machine's memory.
pub fn is_quiet(op: Op) -> bool
    ensures { IsTrue result ↔ IsQuiet op }
{
    shift(op) != Shift::Right && !writes_memory(op)
}

/// One cycle of an operation that is quiet. At a trap the state is as before.
#[tactic(auto, using(crate::proofs::Steps::single_quietly, crate::proofs::Steps::moved_quietly))]
pub fn step_quiet(params: &Params, item: &Item, state: &mut State) -> Result<(), Cause>
    requires item { IsOrdinaryItem item.now }
    requires clock { state.old.clock ≤ most_cycles }
    requires quiet { IsQuiet item.now.op }
    ensures { AnswersQuietStep (step (constants_of params.now) item.now (state_of state.old)) result (state_of state.old) (state_of state.new) }
{
    if let Some(cell) = single(item, state) {
        settle(item.op, &[cell], state);
        Ok(())
    } else if is_move(item.op) {
        let left = moved(item.op, state.visible());
        settle(item.op, left.as_slice(), state);
        Ok(())
    } else {
        step_computing(params, item, state)
    }
}

// The same of any quiet operation, from all the cells that it leaves.
#[tactic(auto, using(crate::proofs::Steps::stepped_quietly))]
fn step_computing(params: &Params, item: &Item, state: &mut State) -> Result<(), Cause>
    requires clock { state.old.clock ≤ most_cycles }
    requires quiet { IsQuiet item.now.op }
    ensures { AnswersQuietStep (step (constants_of params.now) item.now (state_of state.old)) result (state_of state.old) (state_of state.new) }
{
    let left = left_cells(params, item, state)?;
    let fmp = pointer_after(item.op, state);
    settle(item.op, left.as_slice(), state);
    state.fmp = fmp;
    Ok(())
}

/// One cycle of HPERM, whose permutation is one of those that are kept, or is kept from then on.
pub fn step_hperm(permutations: &mut Permutations, state: &mut State)
    requires { state.old.clock ≤ most_cycles }
    ensures step { (item : Item) → item.op ≡ ops.HPerm → step permutations.old item (state_of state.old) ≡ Ok (state_of state.new) }
    ensures same { permutations.new ≡ permutations.old }
{
    let permuted = permutations.permuted(&hashed_state(top_cells(state)));
    let left = cells_behind(permuted);
    settle(Op::HPerm, left.as_slice(), state);
}

// The frame pointer behind the operation.
fn pointer_after(op: Op, state: &State) -> Felt
    ensures { (constants : List ℕ) (item : Item) (advice : List ℕ) → result ≡ fmp_after op (seen constants item advice (core_of state.now)) }
{
    match op {
        Op::FmpUpdate => state.fmp.add(state.visible()[0]),
        _ => state.fmp,
    }
}

// One cycle of an operation that shifts the stack to the right.
#[tactic(auto, using(crate::proofs::Steps::single_growing))]
fn step_growing(params: &Params, item: &Item, state: &mut State) -> Result<(), StepStop>
    requires clock { state.old.clock ≤ most_cycles }
    requires grows { shift_of item.now.op ≡ Shift.Right }
    ensures { AnswersStep (step (constants_of params.now) item.now (state_of state.old)) result (state_of state.old) (state_of state.new) }
{
    let Some(cell) = single(item, state) else {
        return step_wider(params, item, state);
    };
    state.push(cell)?;
    state.clock += 1;
    Ok(())
}

// The same from all the cells that the operation leaves.
#[tactic(auto, using(crate::proofs::Steps::stepped_growing))]
fn step_wider(params: &Params, item: &Item, state: &mut State) -> Result<(), StepStop>
    requires clock { state.old.clock ≤ most_cycles }
    requires grows { shift_of item.now.op ≡ Shift.Right }
    ensures { AnswersStep (step (constants_of params.now) item.now (state_of state.old)) result (state_of state.old) (state_of state.new) }
{
    let left = left_cells(params, item, state)?;
    state.push(Felt::ZERO)?;
    settle(item.op, left.as_slice(), state);
    Ok(())
}
