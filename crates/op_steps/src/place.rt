ghost use Rattle.std.specs.Prelude.{◌≡◌, ◌+◌, ◌≤◌, ◌++◌, length, drop, IfOk, OnOk, OnErr};
ghost use Rattle.vm_field.specs.Limits.{most_cycles};
ghost use Rattle.vm_ops.specs.Moves.{shift_of};
ghost use Rattle.vm_ops.specs.Values.{advice_of};
ghost use Rattle.op_steps.specs.Places.{shifted};

use vm_field::Felt;
use vm_ops::{Op, Shift, advice, shift};
use vm_state::State;

// Writes cells over the top of the stack.
fn overwrite(state: &mut State, cells: &[Felt])
    requires few { length cells.now ≤ 16 }
    requires sixteen { 16 ≤ length state.old.stack }
    ensures { state.new ≡ record state.old { stack = cells.now ++ drop (length cells.now) state.old.stack } }
{
    for (j, cell) in cells.iter().enumerate() {
        state.set(j, *cell);
    }
}

// Takes so many elements of the tape, or all where there are fewer.
fn skip_advice(state: &mut State, count: usize)
    ensures { state.new ≡ record state.old { tape = drop count state.old.tape } }
{
    for _ in 0..count {
        let _ = state.next_advice();
    }
}

// Gives the state the cells that an operation leaves on top, the stack's shift to the left, the
// rest of the tape and the next clock.
pub(crate) fn settle(op: Op, left: &[Felt], state: &mut State)
    requires few { length left.now ≤ 16 }
    requires sixteen { 16 ≤ length state.old.stack }
    requires clock { state.old.clock ≤ most_cycles }
    ensures { state.new ≡ record state.old {
      clock = state.old.clock + 1;
      stack = left.now ++ drop (length left.now) (shifted (shift_of op) state.old.stack);
      tape = drop (advice_of op) state.old.tape;
    } }
{
    shift_left(op, state);
    overwrite(state, left);
    skip_advice(state, advice(op));
    state.clock += 1;
}

// Takes the top cell off, where the operation shifts the stack to the left.
fn shift_left(op: Op, state: &mut State)
    requires { 16 ≤ length state.old.stack }
    ensures is { state.new ≡ record state.old { stack = shifted (shift_of op) state.old.stack } }
    ensures sixteen { 16 ≤ length state.new.stack }
{
    if shift(op) == Shift::Left {
        state.drop_top();
    }
}
