ghost use Rattle.std.specs.Prelude.{◌≡◌, ◌≤◌, ◌<◌, ◌^◌, ℕ, true, List, [], Some, slice_index};
ghost use Rattle.vm_field.specs.Limits.{most_cycles};
ghost use Rattle.vm_ops.specs.Codes.{writes_memory};
ghost use Rattle.vm_ops.specs.Step.{seen, step};
ghost use Rattle.vm_ops.specs.Values.{written};
ghost use Rattle.vm_ops.specs.declared.item.Item.{Item};
ghost use Rattle.vm_state.specs.Views.{core_of, state_of};
ghost use Rattle.op_steps.specs.Steps.{AnswersStep};

use crate::left::address;
use crate::refusal::StepStop;
use vm_field::Felt;
use vm_ops::{Item, Op};
use vm_state::State;

// One cycle of an operation that writes memory.
#[tactic(auto, using(crate::proofs::Steps::stored, crate::proofs::Steps::stored_outside))]
pub(crate) fn step_storing(item: &Item, state: &mut State) -> Result<(), StepStop>
    requires clock { state.old.clock ≤ most_cycles }
    requires writes { writes_memory item.now.op ≡ true }
    ensures { (constants : List ℕ) → AnswersStep (step constants item.now (state_of state.old)) result (state_of state.old) (state_of state.new) }
{
    let address = address(state)?;
    let word = word_behind(item.op, state, address);
    state.store(state.context, address, word)?;
    state.drop_top();
    state.clock += 1;
    Ok(())
}

// The word that the operation writes at the address on top.
fn word_behind(op: Op, state: &State, address: u32) -> [Felt; 4]
    requires writes { writes_memory op ≡ true }
    requires address { address ≡ slice_index state.now.stack 0 }
    ensures { (constants : List ℕ) (item : Item) → Some result ≡ written op (seen constants item [] (core_of state.now)) }
{
    let cells = state.visible();
    match op {
        Op::MStore => {
            let mut word = state.word_at(state.context, address);
            word[0] = cells[1];
            word
        }
        _ => [cells[4], cells[3], cells[2], cells[1]],
    }
}
