ghost use Rattle.std.specs.Prelude.{◌≡◌, ◌^◌, ◌<◌, ◌≤◌, None, false, if◌then◌else◌, length, slice_index, take, IsTrue, IfOk, OnOk, MatchResult};
ghost use Rattle.block_tree.specs.Cycles.{Do, frame_of};
ghost use Rattle.vm_ops.specs.Codes.{accesses_memory};
ghost use Rattle.vm_ops.specs.Items.{IsOrdinaryItem};
ghost use Rattle.vm_field.specs.Machine.{word_at, zero_word};
ghost use Rattle.vm_ops.specs.Values.{advice_of};
ghost use Rattle.vm_state.specs.Views.{core_of, state_of};
ghost use Rattle.block_tree.specs.Rows.{four_of};
ghost use Rattle.machine_cycles.specs.Events.{visible_of};
ghost use Rattle.machine_cycles.specs.Marks.{IsEntry, SetsAside, frame_in, mark_of};
ghost use Rattle.machine_cycles.specs.Running.{Ran, done_of};
ghost use Rattle.machine_cycles.specs.Settings.{constants_in, cycle_in};
ghost use Rattle.op_steps.specs.Steps.{AnswersStep};
ghost use Rattle.vm_field.specs.Limits.{most_cycles};
ghost use Rattle.vm_ops.specs.Step.{step};
ghost use Rattle.machine_cycles.specs.declared.refusal.Stop.TheVariants.{OutOfCycles};

use crate::effects::{effect, top_of};
use crate::event::Visible;
use crate::log::Events;
use crate::mark::{Frame, Mark};
use crate::refusal::{Stop, stop_at};
use crate::setting::Setting;
use op_steps::{StepStop, step, step_hperm};
use perm_memo::Permutations;
use std::mem;
use vm_field::{Felt, Word};
use vm_ops::{Item, Op, accesses_memory, advice};
use vm_state::{Aside, State};

/// The state of a run, and what its cycles have shown so far.
#[derive(Drop)]
pub struct Runner {
    pub state: State,
    /// What the latest call has set aside.
    pub hidden: Aside,
    pub log: Events,
    /// The permutations that HPERM has taken, under the constants of the run.
    pub permutations: Permutations,
}

/// One cycle that is no operation.
pub fn cycle(runner: &mut Runner, setting: &Setting, mark: Mark) -> Result<(), Stop>
    ensures ran { Ran setting.now (cycle_in setting.now (mark_of mark) (state_of runner.old.state)) runner.old.log result runner.new }
    ensures hidden { OnOk result (SetsAside mark runner.old.state.stack runner.new.hidden) }
    ensures same { runner.new.permutations ≡ runner.old.permutations }
{
    let before = before_cycle(&runner.state, setting)?;
    let op = mark.op();
    let hash = mark.hash();
    if let Err(stop) = effect(&mut runner.state, &mut runner.hidden, setting, mark) {
        return Err(stop_at(before.clock, stop));
    }
    runner.state.clock += 1;
    let top = top_of(&runner.state);
    runner.log.push_block(op, &before, &hash, top)?;
    Ok(())
}

/// The cycle that starts a call or a syscall, and what it sets aside.
pub fn enter(runner: &mut Runner, setting: &Setting, mark: Mark) -> Result<Frame, Stop>
    requires entry { IsEntry mark }
    ensures ran { Ran setting.now (cycle_in setting.now (mark_of mark) (state_of runner.old.state)) runner.old.log (done_of result) runner.new }
    ensures frame { IfOk result (λ frame. frame_in frame ≡ frame_of (core_of runner.old.state)) }
    ensures same { runner.new.permutations ≡ runner.old.permutations }
{
    let context = runner.state.context;
    let fmp = runner.state.fmp;
    let in_syscall = runner.state.in_syscall;
    let digest = runner.state.digest;
    match cycle(runner, setting, mark) {
        Err(stop) => Err(stop),
        Ok(()) => Ok(Frame {
            context,
            fmp,
            in_syscall,
            digest,
            hidden: mem::replace(&mut runner.hidden, Aside::none(setting.alloc)),
        }),
    }
}

/// One cycle of an operation.
pub fn operation(runner: &mut Runner, setting: &Setting, item: &Item) -> Result<(), Stop>
    requires item { IsOrdinaryItem item.now }
    requires constants { runner.old.permutations ≡ constants_in setting.now }
    ensures ran { Ran setting.now (cycle_in setting.now (Do item.now) (state_of runner.old.state)) runner.old.log result runner.new }
    ensures same { runner.new.permutations ≡ runner.old.permutations }
{
    if is_plain(item) {
        plain_operation(runner, setting, item)
    } else {
        using_operation(runner, setting, item)
    }
}

// Whether the operation takes nothing of the tape, accesses no memory and has no immediate.
fn is_plain(item: &Item) -> bool
    ensures { IsTrue result → (item.now.imm ≡ None) × (advice_of item.now.op ≡ 0) × (accesses_memory item.now.op ≡ false) }
{
    item.imm.is_none() && advice(item.op) == 0 && !accesses_memory(item.op)
}

// The same of a plain operation. Most are, so that this way is short.
fn plain_operation(runner: &mut Runner, setting: &Setting, item: &Item) -> Result<(), Stop>
    requires item { IsOrdinaryItem item.now }
    requires constants { runner.old.permutations ≡ constants_in setting.now }
    requires plain { (item.now.imm ≡ None) × (advice_of item.now.op ≡ 0) × (accesses_memory item.now.op ≡ false) }
    ensures ran { Ran setting.now (cycle_in setting.now (Do item.now) (state_of runner.old.state)) runner.old.log result runner.new }
    ensures same { runner.new.permutations ≡ runner.old.permutations }
{
    let before = before_cycle(&runner.state, setting)?;
    if let Err(stop) = stepped(runner, setting, item) {
        return Err(stop_at(before.clock, stop));
    }
    let top = top_of(&runner.state);
    runner.log.push_plain(item.op, &before, top)?;
    Ok(())
}

// The same of any operation.
fn using_operation(runner: &mut Runner, setting: &Setting, item: &Item) -> Result<(), Stop>
    requires item { IsOrdinaryItem item.now }
    requires constants { runner.old.permutations ≡ constants_in setting.now }
    ensures ran { Ran setting.now (cycle_in setting.now (Do item.now) (state_of runner.old.state)) runner.old.log result runner.new }
    ensures same { runner.new.permutations ≡ runner.old.permutations }
{
    let before = before_cycle(&runner.state, setting)?;
    let tape = next_advice(&runner.state, item.op);
    if let Err(stop) = stepped(runner, setting, item) {
        return Err(stop_at(before.clock, stop));
    }
    let word = word_behind(&runner.state, item.op, &before);
    let top = top_of(&runner.state);
    runner.log.push_operation(item, &before, &tape, &word, top)?;
    Ok(())
}

// The step of an operation. HPERM's permutation is kept for the rows that show it.
fn stepped(runner: &mut Runner, setting: &Setting, item: &Item) -> Result<(), StepStop>
    requires item { IsOrdinaryItem item.now }
    requires clock { runner.old.state.clock ≤ most_cycles }
    requires constants { runner.old.permutations ≡ constants_in setting.now }
    ensures step { AnswersStep (step (constants_in setting.now) item.now (state_of runner.old.state)) result
        (state_of runner.old.state) (state_of runner.new.state) }
    ensures log { runner.new.log ≡ runner.old.log }
    ensures same { runner.new.permutations ≡ runner.old.permutations }
{
    match item.op {
        Op::HPerm => {
            step_hperm(&mut runner.permutations, &mut runner.state);
            Ok(())
        }
        _ => step(setting.alloc, setting.params, item, &mut runner.state),
    }
}

// What is visible before a cycle, if the limit allows the cycle.
fn before_cycle(state: &State, setting: &Setting) -> Result<Visible, Stop>
    ensures { MatchResult result
        (λ before. (before ≡ visible_of (core_of state.now)) × (state.now.clock < setting.now.limit))
        (λ stop. (stop ≡ OutOfCycles) × (setting.now.limit ≤ state.now.clock)) }
{
    if state.clock >= setting.limit {
        return Err(Stop::OutOfCycles);
    }
    Ok(Visible {
        clock: state.clock,
        context: state.context,
        fmp: state.fmp,
        in_syscall: state.in_syscall,
        digest: state.digest,
        nesting: state.nesting,
        depth: state.depth(),
        cells: *state.visible(),
    })
}

// What an operation would take of the tape, if there is enough.
fn next_advice(state: &State, op: Op) -> [Felt; 4]
    ensures { advice_of op ≤ length state.now.tape → result ≡ four_of (take (advice_of op) state.now.tape) }
{
    let zero = Felt::ZERO;
    match op {
        Op::AdvPop if state.advice_left() >= 1 => [state.advice_at(0), zero, zero, zero],
        Op::AdvPopW if state.advice_left() >= 4 => [
            state.advice_at(0),
            state.advice_at(1),
            state.advice_at(2),
            state.advice_at(3),
        ],
        _ => [zero; 4],
    }
}

// The word that an operation has read or written.
fn word_behind(state: &State, op: Op, before: &Visible) -> [Felt; 4]
    requires address { IsTrue (accesses_memory op) → slice_index before.now.cells 0 < 2 ^ 32 }
    ensures { result ≡ (if accesses_memory op then word_at state.now.memory before.now.context (slice_index before.now.cells 0) else zero_word) }
{
    if accesses_memory(op) {
        state.word_at(before.context, before.cells[0].value() as u32)
    } else {
        Word::ZERO.elements()
    }
}
