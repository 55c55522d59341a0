ghost use Rattle.std.specs.Prelude.{◌≡◌, ◌+◌, ◌-◌, ◌^◌, ◌<◌, ◌≤◌, Err, [], drop, length, nat_lt, OnOk};
ghost use Rattle.vm_field.specs.Limits.{most_cycles};
ghost use Rattle.block_tree.specs.Cycles.{and_then, called_word, closes, effect_of, enters_call, enters_syscall, finds, is_in_kernel, opens, pops_bit, reads, returns_to, top};
ghost use Rattle.vm_state.specs.Views.{core_of};
ghost use Rattle.machine_cycles.specs.Effects.{Effected, Opened};
ghost use Rattle.machine_cycles.specs.Marks.{SetsAside, frame_in, mark_of};
ghost use Rattle.machine_cycles.specs.Settings.{constants_in};

use crate::mark::{Frame, Mark};
use crate::setting::Setting;
use op_steps::StepStop;
use tree_hash::Batch;
use vm_field::{Felt, MOST_NESTING, Word};
use vm_ops::Cause;
use vm_state::{Aside, State};

/// What a cycle that is no operation does to all of the state but its clock, and what the start of
/// a call sets aside.
///
/// # Errors
///
/// The cause of its trap, or that there is no memory.
pub(crate) fn effect(
    state: &mut State,
    hidden: &mut Aside,
    setting: &Setting,
    mark: Mark,
) -> Result<(), StepStop>
    requires clock { state.old.clock ≤ most_cycles }
    ensures effect { Effected (effect_of (constants_in setting.now) setting.now.kernel.now (mark_of mark) []
        (core_of state.old)) result state.old state.new }
    ensures hidden { OnOk result (SetsAside mark state.old.stack hidden.new) }
{
    match mark {
        Mark::StartOpaque => start_opaque(state),
        Mark::StartSpan(batch) => start_span(state, &batch),
        Mark::StartJoin(..) => start_join(state),
        Mark::StartSplit(..) | Mark::StartLoop(_) => start_on_bit(state),
        Mark::StartCall(callee) => start_call(state, hidden, &callee),
        Mark::StartSyscall(callee) => start_syscall(state, hidden, setting.kernel, &callee),
        Mark::StartDyn(known) => start_dyn(state, known),
        Mark::Respan(batch) => read(state, &batch),
        Mark::Repeat(_) => pop_bit(state),
        Mark::End(_) | Mark::EndSpan(_) => close(state),
        Mark::EndLoop(_) => end_loop(state),
        Mark::EndCall(_, frame) | Mark::EndSyscall(_, frame) => return_to(state, frame),
    }
}

fn start_opaque(state: &mut State) -> Result<(), StepStop>
    ensures { Effected (opens (λ c. Err Cause.OpaqueBlock) (core_of state.old)) result state.old state.new }
{
    open(state)?;
    Err(StepStop::Trap(Cause::OpaqueBlock))
}

fn start_span(state: &mut State, batch: &Batch) -> Result<(), StepStop>
    ensures { Effected (opens (reads batch.now.elements) (core_of state.old)) result state.old state.new }
{
    open(state)?;
    read(state, batch)
}

fn start_dyn(state: &mut State, known: bool) -> Result<(), StepStop>
    ensures { Effected (opens (finds known) (core_of state.old)) result state.old state.new }
{
    open(state)?;
    find(state, known)
}

fn start_join(state: &mut State) -> Result<(), StepStop>
    ensures { Effected (opens (λ c. Ok c) (core_of state.old)) result state.old state.new }
{
    open(state)
}

fn start_on_bit(state: &mut State) -> Result<(), StepStop>
    ensures { Effected (opens pops_bit (core_of state.old)) result state.old state.new }
{
    open(state)?;
    pop_bit(state)
}

fn start_call(state: &mut State, hidden: &mut Aside, callee: &Word) -> Result<(), StepStop>
    requires clock { state.old.clock ≤ most_cycles }
    ensures effect { Effected (opens (enters_call callee.now) (core_of state.old)) result state.old state.new }
    ensures hidden { OnOk result (hidden.new ≡ drop 16 state.old.stack) }
{
    open(state)?;
    enter_call(state, hidden, callee)
}

fn start_syscall(
    state: &mut State,
    hidden: &mut Aside,
    kernel: &[Word],
    callee: &Word,
) -> Result<(), StepStop>
    ensures effect { Effected (opens (enters_syscall kernel.now callee.now) (core_of state.old)) result state.old state.new }
    ensures hidden { OnOk result (hidden.new ≡ drop 16 state.old.stack) }
{
    open(state)?;
    enter_syscall(state, hidden, kernel, callee)
}

fn end_loop(state: &mut State) -> Result<(), StepStop>
    ensures { Effected (and_then (pops_bit (core_of state.old)) closes) result state.old state.new }
{
    pop_bit(state)?;
    close(state)
}

// A block starts.
#[tactic(auto, unfolding(block_tree::specs::Cycles::opens))]
fn open(state: &mut State) -> Result<(), StepStop>
    ensures { Opened result state.old state.new }
{
    if state.nesting < MOST_NESTING {
        state.nesting += 1;
        Ok(())
    } else {
        Err(StepStop::Trap(Cause::NestedTooDeep))
    }
}

// A block ends.
#[tactic(auto, unfolding(block_tree::specs::Cycles::closes))]
fn close(state: &mut State) -> Result<(), StepStop>
    ensures { Effected (closes (core_of state.old)) result state.old state.new }
{
    state.nesting = state.nesting.saturating_sub(1);
    Ok(())
}

// Pops the top cell, which must be 0 or 1.
#[tactic(auto, unfolding(block_tree::specs::Cycles::pops_bit))]
fn pop_bit(state: &mut State) -> Result<(), StepStop>
    ensures { Effected (pops_bit (core_of state.old)) result state.old state.new }
{
    if top_of(state).value() < 2 {
        state.drop_top();
        Ok(())
    } else {
        Err(StepStop::Trap(Cause::NotBinary))
    }
}

// There must be a target.
#[tactic(auto, unfolding(block_tree::specs::Cycles::finds))]
fn find(state: &mut State, known: bool) -> Result<(), StepStop>
    ensures { Effected (finds known (core_of state.old)) result state.old state.new }
{
    if known {
        Ok(())
    } else {
        Err(StepStop::Trap(Cause::UnknownTarget))
    }
}

// The batch must have a reading.
#[tactic(auto, unfolding(block_tree::specs::Cycles::reads))]
fn read(state: &mut State, batch: &Batch) -> Result<(), StepStop>
    ensures { Effected (reads batch.now.elements (core_of state.old)) result state.old state.new }
{
    if batch.is_read {
        Ok(())
    } else {
        Err(StepStop::Trap(Cause::BadBatch))
    }
}

// The callee has a context and a digest of its own.
#[tactic(auto, unfolding(block_tree::specs::Cycles::enters_call))]
fn enter_call(state: &mut State, hidden: &mut Aside, callee: &Word) -> Result<(), StepStop>
    requires clock { state.old.clock ≤ most_cycles }
    ensures effect { Effected (enters_call callee.now (core_of state.old)) result state.old state.new }
    ensures hidden { OnOk result (hidden.new ≡ drop 16 state.old.stack) }
{
    if state.in_syscall {
        return Err(StepStop::Trap(Cause::CallInSyscall));
    }
    *hidden = state.set_aside();
    state.context = state.clock + 1;
    state.fmp = Felt::reduced(1 << 30);
    state.digest = *callee;
    Ok(())
}

// The callee, which must be of the kernel's list, runs in context 0.
#[tactic(auto, unfolding(block_tree::specs::Cycles::enters_syscall))]
fn enter_syscall(
    state: &mut State,
    hidden: &mut Aside,
    kernel: &[Word],
    callee: &Word,
) -> Result<(), StepStop>
    ensures effect { Effected (enters_syscall kernel.now callee.now (core_of state.old)) result state.old state.new }
    ensures hidden { OnOk result (hidden.new ≡ drop 16 state.old.stack) }
{
    if state.in_syscall {
        return Err(StepStop::Trap(Cause::CallInSyscall));
    }
    if !is_in_kernel(kernel, callee) {
        return Err(StepStop::Trap(Cause::NotInKernel));
    }
    *hidden = state.set_aside();
    state.context = 0;
    state.fmp = Felt::reduced(1 << 31);
    state.in_syscall = true;
    Ok(())
}

fn is_in_kernel(kernel: &[Word], callee: &Word) -> bool
    ensures { result ≡ is_in_kernel kernel.now callee.now }
{
    kernel.iter().any(|word| callee == word)
}

// What was set aside comes back.
#[tactic(auto, unfolding(block_tree::specs::Cycles::returns_to))]
fn return_to(state: &mut State, frame: Frame) -> Result<(), StepStop>
    ensures { Effected (returns_to (frame_in frame) (core_of state.old)) result state.old state.new }
{
    if is_deep(state) {
        return Err(StepStop::Trap(Cause::DepthAtReturn));
    }
    state.bring_back(frame.hidden);
    state.context = frame.context;
    state.fmp = frame.fmp;
    state.in_syscall = frame.in_syscall;
    state.digest = frame.digest;
    state.nesting = state.nesting.saturating_sub(1);
    Ok(())
}

// Whether there are cells below the sixteen that operations see.
fn is_deep(state: &State) -> bool
    ensures is { result ≡ nat_lt 16 (length state.now.stack) }
    ensures full { 16 ≤ length state.now.stack }
{
    16 < state.depth()
}

/// The cell on top.
pub fn top_of(state: &State) -> Felt
    ensures { result ≡ top (core_of state.now) }
{
    state.visible()[0]
}

/// The digest on top, its last element on top.
pub fn called_word(state: &State) -> Word
    ensures { result ≡ called_word (core_of state.now) }
{
    let cells = state.visible();
    Word([cells[3], cells[2], cells[1], cells[0]])
}
