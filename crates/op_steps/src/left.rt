ghost use Rattle.std.specs.Prelude.{◌≡◌, ◌<◌, ◌≤◌, ◌^◌, ℕ, true, false, length, reverse, slice_index, take, IfOk, MatchResult};
ghost use Rattle.rpo_hash.specs.Constants.{constants_of};
ghost use Rattle.vm_field.specs.Machine.{word_at};
ghost use Rattle.vm_field.specs.Permutation.{permuted};
ghost use Rattle.vm_ops.specs.Codes.{writes_memory};
ghost use Rattle.vm_ops.specs.Moves.{leaves_of};
ghost use Rattle.vm_ops.specs.Values.{advice_of};
ghost use Rattle.vm_state.specs.Views.{state_of};
ghost use Rattle.vm_ops.specs.Stepping.{seen_at};
ghost use Rattle.op_steps.specs.Outcomes.{outcome, outcome_at, reads_more};

use crate::cells::Cells;
use crate::on_stack::on_stack;
use crate::words::number;
use rpo_hash::{Params, permute};
use vm_field::Felt;
use vm_ops::{Cause, Item, Op, advice};
use vm_state::State;

// The cells that an operation leaves on top of this state's stack, or its trap, of one that writes
// no memory.
#[tactic(auto, unfolding(crate::specs::Outcomes::outcome_at))]
pub(crate) fn left_cells(params: &Params, item: &Item, state: &State) -> Result<Cells, Cause>
    requires { writes_memory item.now.op ≡ false }
    ensures is { result ≡ outcome_at (constants_of params.now) item.now (state_of state.now) }
    ensures count { IfOk result (λ left. length left ≡ leaves_of item.now.op) }
    ensures sixteen { IfOk result (λ left. 16 ≤ length state.now.stack) }
{
    if state.advice_left() < advice(item.op) {
        Err(Cause::AdviceEmpty)
    } else {
        on_state(params, item, state)
    }
}

// The same where the tape is long enough.
#[tactic(auto, unfolding(crate::specs::Outcomes::outcome, vm_ops::specs::Step::left_cells, vm_ops::specs::Values::computed, vm_ops::specs::Values::trap_of))]
fn on_state(params: &Params, item: &Item, state: &State) -> Result<Cells, Cause>
    requires keeps { writes_memory item.now.op ≡ false }
    requires tape { advice_of item.now.op ≤ length state.now.tape }
    ensures is { result ≡ outcome item.now.op (seen_at (constants_of params.now) item.now (state_of state.now)) }
    ensures count { IfOk result (λ left. length left ≡ leaves_of item.now.op) }
    ensures sixteen { 16 ≤ length state.now.stack }
{
    let cells = top_cells(state);
    match item.op {
        Op::FmpAdd => Ok(Cells::one(cells[0].add(state.fmp))),
        Op::MLoad => Ok(Cells::one(addressed_word(state)?[0])),
        Op::MLoadW => Ok(Cells::of_word(addressed_word(state)?)),
        Op::Caller => caller(state),
        Op::AdvPop => Ok(Cells::one(state.advice_at(0))),
        Op::AdvPopW => Ok(Cells::of_word(next_word(state))),
        Op::HPerm => Ok(permuted_cells(params, cells)),
        Op::SDepth => Ok(Cells::one(Felt::reduced(state.depth() as u128))),
        Op::Clk => Ok(Cells::one(Felt::reduced(u128::from(state.clock)))),
        Op::Push => Ok(Cells::one(item.imm.unwrap_or(Felt::ZERO))),
        op => on_stack(op, cells),
    }
}

/// The cells that operations see.
pub(crate) fn top_cells(state: &State) -> &[Felt; 16]
    ensures is { result.now ≡ take 16 state.now.stack }
    ensures sixteen { 16 ≤ length state.now.stack }
{
    let _ = state.depth();
    state.visible()
}

// The address that the top cell holds.
pub(crate) fn address(state: &State) -> Result<u32, Cause>
    ensures { MatchResult result
        (λ n. (n ≡ slice_index state.now.stack 0) × (n < 2 ^ 32))
        (λ e. (e ≡ Cause.AddressRange) × (2 ^ 32 ≤ slice_index state.now.stack 0)) }
{
    number(state.visible()[0], Cause::AddressRange)
}

// This context's word of memory at the address on top.
fn addressed_word(state: &State) -> Result<[Felt; 4], Cause>
    ensures { MatchResult result
        (λ word. (word ≡ word_at state.now.memory state.now.context (slice_index state.now.stack 0))
        × (slice_index state.now.stack 0 < 2 ^ 32))
        (λ e. (e ≡ Cause.AddressRange) × (2 ^ 32 ≤ slice_index state.now.stack 0)) }
{
    Ok(state.word_at(state.context, address(state)?))
}

// The digest of the function that runs, inside a syscall.
fn caller(state: &State) -> Result<Cells, Cause>
    ensures { MatchResult result
        (λ cells. (cells ≡ reverse state.now.digest) × (length cells ≡ 4) × (state.now.in_syscall ≡ true))
        (λ e. (e ≡ Cause.NotInSyscall) × (state.now.in_syscall ≡ false)) }
{
    if state.in_syscall {
        Ok(Cells::of_word(state.digest.elements()))
    } else {
        Err(Cause::NotInSyscall)
    }
}

// The next four elements of the tape.
fn next_word(state: &State) -> [Felt; 4]
    requires { 4 ≤ length state.now.tape }
    ensures { result ≡ take 4 state.now.tape }
{
    [
        state.advice_at(0),
        state.advice_at(1),
        state.advice_at(2),
        state.advice_at(3),
    ]
}

// The permutation of the top twelve cells.
fn permuted_cells(params: &Params, cells: &[Felt; 16]) -> Cells
    ensures is { result ≡ reverse (permuted (constants_of params.now) (reverse (take 12 cells.now))) }
    ensures count { length result ≡ 12 }
{
    cells_behind(permute(params, hashed_state(cells)))
}

/// What HPERM permutes: the top twelve cells, of which the last one holds the state's first element.
pub(crate) fn hashed_state(cells: &[Felt; 16]) -> [Felt; 12]
    ensures { result ≡ reverse (take 12 cells.now) }
{
    let mut state = [Felt::ZERO; 12];
    state.copy_from_slice(&cells[..12]);
    state.reverse();
    state
}

/// The cells that HPERM leaves of the state behind its permutation.
pub(crate) fn cells_behind(permuted: [Felt; 12]) -> Cells
    ensures is { result ≡ reverse permuted }
    ensures count { length result ≡ 12 }
{
    let mut cells = permuted;
    cells.reverse();
    Cells::of(&cells)
}
