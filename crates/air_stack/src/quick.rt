//! A quick test of the depth, the key and the cells behind a row whose operation does not call.
ghost use Rattle.std.specs.Prelude.{◌≡◌, ℕ, ◌<◌, ◌≤◌, ◌^◌, Some, None, All, IsTrue, length, option_map};
ghost use Rattle.vm_field.specs.Signs.{◌⊟◌, ◌⊠◌};
ghost use Rattle.vm_ops.specs.Codes.{code_of};
ghost use Rattle.vm_ops.specs.Moves.{leaves_of, shift_of};
ghost use Rattle.vm_table.specs.MainColumns.{depth};
ghost use Rattle.air_kit.specs.Flags.{HasOp};
ghost use Rattle.air_kit.specs.Places.{first_fault_of};
ghost use Rattle.air_kit.specs.StackValues.{below_term, cell_values, deeper, depth_values, top_term};
ghost use Rattle.air_stack.specs.Parts.{spot_between};
ghost use Rattle.air_stack.specs.Quick.{AreCopies, ComeUp, EndsBlock, EndsCall, EndsLoop, Falls, GoDown, IsMoved, IsSteady, Rises, Shifts, StayLevel, Stays};

use crate::depth::deeper;
use crate::moves::top_term;
use air_kit::{Seen, are_same, is_one, is_zero};
use vm_field::Felt;
use vm_ops::{Op, Shift, leaves, opcode, shift, sources};
use vm_table::MainView;

/// Whether a row is not the last one, its operation does not call, and its entries 115 to 134 are 0.
/// Where the answer is false, they may be 0 all the same.
pub(crate) fn is_moved<V: MainView>(x: &Seen<'_, V>, next: &Option<V>) -> bool
    ensures { IsTrue result → IsMoved (V.cells x.now.row.now) (option_map V.cells next.now) }
{
    let Some(y) = next else {
        return false;
    };
    let Some(op) = x.operation() else {
        return false;
    };
    let deep = deeper(x.row);
    if is_steady(op) {
        if is_depth_clean(x.row, y, op, deep) {
            return are_cells_clean(x.row, y, op, deep);
        }
        return false;
    }
    if opcode(op) == opcode(Op::End) {
        return is_end_clean(x.row, y, op, deep);
    }
    false
}

fn is_steady(op: Op) -> bool
    ensures { IsTrue result → IsSteady op }
{
    let code = opcode(op);
    code != opcode(Op::End) && code != opcode(Op::Call) && code != opcode(Op::Syscall)
}

fn falls<V: MainView>(x: &V, y: &V, deep: Felt) -> bool
    requires { deep ≡ deeper (V.cells x.now) }
    ensures { IsTrue result → Falls (V.cells x.now) (V.cells y.now) }
{
    is_zero(y.depth() - x.depth() + deep) && is_zero((Felt::ONE - deep) * (y.key() - x.key()))
}

fn stays<V: MainView>(x: &V, y: &V) -> bool
    ensures { IsTrue result → Stays (V.cells x.now) (V.cells y.now) }
{
    are_same(y.depth(), x.depth()) && are_same(y.key(), x.key())
}

fn rises<V: MainView>(x: &V, y: &V) -> bool
    ensures { IsTrue result → Rises (V.cells x.now) (V.cells y.now) }
{
    is_zero(y.depth() - x.depth() - Felt::ONE) && are_same(y.key(), x.clk())
}

// Whether the depth and the key move as under an operation.
fn shifts<V: MainView>(x: &V, y: &V, op: Op, deep: Felt) -> bool
    requires { deep ≡ deeper (V.cells x.now) }
    ensures { IsTrue result → Shifts (shift_of op) (V.cells x.now) (V.cells y.now) }
{
    match shift(op) {
        Shift::Left => falls(x, y, deep),
        Shift::Stay => stays(x, y),
        Shift::Right => rises(x, y),
    }
}

// Whether the flag of a deep stack is as it has to be.
fn is_deep_clean<V: MainView>(x: &V, deep: Felt) -> bool
    requires { deep ≡ deeper (V.cells x.now) }
    ensures { IsTrue result → (depth (V.cells x.now) ⊟ 16) ⊠ (1 ⊟ deeper (V.cells x.now)) ≡ 0 }
{
    if is_one(deep) {
        return true;
    }
    is_zero(x.depth() - Felt::from_u32(16))
}

fn is_depth_clean<V: MainView>(x: &V, y: &V, op: Op, deep: Felt) -> bool
    requires has { HasOp (V.cells x.now) op }
    requires steady { IsSteady op }
    requires deep { deep ≡ deeper (V.cells x.now) }
    ensures { IsTrue result → first_fault_of 115 (depth_values (spot_between (V.cells x.now) (Some (V.cells y.now)))) ≡ None }
{
    if is_deep_clean(x, deep) {
        return shifts(x, y, op, deep);
    }
    false
}

// Whether the cells from a place on are those one place lower before.
fn come_up<V: MainView>(from: usize, x: &V, y: &V) -> bool
    ensures { IsTrue result → ComeUp from (V.cells x.now) (V.cells y.now) }
{
    for j in from..15 {
        if !are_same(y.s(j), x.s(j + 1)) {
            return false;
        }
    }
    true
}

// Whether they are those at the same place.
fn stay_level<V: MainView>(from: usize, x: &V, y: &V) -> bool
    ensures { IsTrue result → StayLevel from (V.cells x.now) (V.cells y.now) }
{
    for j in from..16 {
        if !are_same(y.s(j), x.s(j)) {
            return false;
        }
    }
    true
}

// Whether they are those one place higher.
fn go_down<V: MainView>(from: usize, x: &V, y: &V) -> bool
    requires { 1 ≤ from }
    ensures { IsTrue result → GoDown from (V.cells x.now) (V.cells y.now) }
{
    for j in from..16 {
        if !are_same(y.s(j), x.s(j - 1)) {
            return false;
        }
    }
    true
}

// Whether the cells below those that the operation leaves are as its shift brings them there.
fn are_below_clean<V: MainView>(x: &V, y: &V, op: Op, deep: Felt) -> bool
    requires { deep ≡ deeper (V.cells x.now) }
    ensures { IsTrue result → (j : ℕ) → j < 16 → leaves_of op ≤ j → below_term j (V.cells x.now) (V.cells y.now) op ≡ 0 }
{
    let left = leaves(op);
    match shift(op) {
        Shift::Left => {
            if is_zero((Felt::ONE - deep) * y.s15()) {
                return come_up(left, x, y);
            }
            false
        }
        Shift::Stay => stay_level(left, x, y),
        Shift::Right => go_down(left, x, y),
    }
}

// Whether the cells on top are copies of these.
fn are_copies<V: MainView>(sources: &[usize], x: &V, y: &V) -> bool
    requires few { length sources.now ≤ 16 }
    requires visible { All (λ i. i < 16) sources.now }
    ensures { IsTrue result → AreCopies sources.now (V.cells x.now) (V.cells y.now) }
{
    for j in 0..sources.len() {
        if !are_same(y.s(j), x.s(sources[j])) {
            return false;
        }
    }
    true
}

// Whether the cells that the operation leaves are as it computes or moves them.
fn are_tops_clean<V: MainView>(x: &V, y: &V, op: Op) -> bool
    ensures { IsTrue result → (j : ℕ) → j < leaves_of op → top_term j (V.cells x.now) (V.cells y.now) op ≡ 0 }
{
    let sources = sources(op);
    if sources.len() == leaves(op) {
        return are_copies(sources, x, y);
    }
    for j in 0..leaves(op) {
        if !is_zero(top_term(j, x, y, op)) {
            return false;
        }
    }
    true
}

fn are_cells_clean<V: MainView>(x: &V, y: &V, op: Op, deep: Felt) -> bool
    requires has { HasOp (V.cells x.now) op }
    requires steady { IsSteady op }
    requires deep { deep ≡ deeper (V.cells x.now) }
    ensures { IsTrue result → first_fault_of 119 (cell_values (spot_between (V.cells x.now) (Some (V.cells y.now)))) ≡ None }
{
    if are_tops_clean(x, y, op) {
        return are_below_clean(x, y, op, deep);
    }
    false
}

fn ends_block<V: MainView>(x: &V, y: &V) -> bool
    ensures { IsTrue result → EndsBlock (V.cells x.now) (V.cells y.now) }
{
    stays(x, y) && stay_level(0, x, y)
}

fn ends_call<V: MainView>(x: &V, y: &V) -> bool
    ensures { IsTrue result → EndsCall (V.cells x.now) (V.cells y.now) }
{
    is_zero(x.depth() - Felt::from_u32(16)) && stay_level(0, x, y)
}

fn ends_loop<V: MainView>(x: &V, y: &V, deep: Felt) -> bool
    requires { deep ≡ deeper (V.cells x.now) }
    ensures { IsTrue result → EndsLoop (V.cells x.now) (V.cells y.now) }
{
    falls(x, y, deep) && is_zero((Felt::ONE - deep) * y.s15()) && come_up(0, x, y)
}

// An END keeps the stack; that of a loop that was entered takes the condition off, and that of a call
// brings its depth back.
fn is_end_clean<V: MainView>(x: &V, y: &V, op: Op, deep: Felt) -> bool
    requires has { HasOp (V.cells x.now) op }
    requires ends { code_of op ≡ 76 }
    requires deep { deep ≡ deeper (V.cells x.now) }
    ensures { IsTrue result → IsMoved (V.cells x.now) (Some (V.cells y.now)) }
{
    if !is_deep_clean(x, deep) {
        return false;
    }
    let calls = x.h6() + x.h7();
    if is_zero(x.h4()) {
        if is_zero(calls) {
            return ends_block(x, y);
        }
        if is_one(calls) {
            return ends_call(x, y);
        }
        return false;
    }
    if is_one(x.h4()) {
        if is_zero(calls) {
            return ends_loop(x, y, deep);
        }
    }
    false
}
