//! The run of a program, as it is told.
ghost use Rattle.std.specs.Prelude.{◌≡◌, ◌≤◌, ◌++◌, IfOk, OnOk};
ghost use Rattle.vm_field.specs.Limits.{most_cycles};
ghost use Rattle.rpo_hash.specs.Constants.{constants_of};
ghost use Rattle.block_tree.specs.Execution.{IsCutOff};
ghost use Rattle.processor.specs.Executed.{outcome_of};
ghost use Rattle.statement.specs.Inputs.{given_of};
ghost use Rattle.cmd_kit.specs.RunEnds.{limit_line, trap_line};
ghost use Rattle.cmd_kit.specs.Steps.{ends_with};
ghost use Rattle.masm_places.specs.Indexed.{texts_in};
ghost use Rattle.show_trace.specs.Telling.{halt_text, progress_answer, progress_text};
ghost use Rattle.show_trace.specs.TraceSteps.{cut_in, told};

use block_tree::{Program, cut_laws};
use cmd_kit::{Answer, Status};
use decimal_text::append_number;
use machine_cycles::Stop;
use masm_places::Sources;
use processor::{Progress, advance};
use rpo_hash::Params;
use show_cycles::{append_cycles, append_next, append_stand};
use std::alloc::Global;
use vm_field::{Bytes, Memory};
use vm_ops::{Cause, cause_text};
use vm_state::Inputs;

/// What is told of a program: its cycles up to its end, its trap or the limit.
pub(crate) fn told_run(
    alloc: Global,
    sources: &Sources<'_>,
    params: &Params,
    program: &Program,
    inputs: &Inputs,
    limit: u32,
) -> Result<Answer, Memory>
    requires { limit ≤ most_cycles }
    ensures { IfOk result (λ a. a ≡ told (constants_of params.now) (texts_in sources.now) program.now (given_of inputs.now) limit) }
{
    cut_laws();
    match advance(alloc, params, program, inputs, limit) {
        Ok(progress) => told_progress(alloc, sources, &progress, limit),
        // The same run within the trap's clock is cut off there.
        Err(Stop::Trap { clock, cause }) => {
            told_trap(alloc, sources, params, program, inputs, clock, cause)
        }
        Err(Stop::OutOfCycles) => unreachable!(),
        Err(Stop::Memory) => Err(Memory::Memory),
    }
}

// What is told of a run that did not trap.
fn told_progress(
    alloc: Global,
    sources: &Sources<'_>,
    progress: &Progress,
    limit: u32,
) -> Result<Answer, Memory>
    ensures { IfOk result (λ a. a ≡ progress_answer (texts_in sources.now) limit progress.now) }
{
    if progress.is_done {
        let status = Status::Ok;
        let line = text_of(alloc, sources, progress)?;
        return Ok(Answer { status, line });
    }
    let mut line = halt_of(alloc, sources, progress)?;
    append_limit(alloc, &mut line, limit)?;
    let status = Status::OutOfCycles;
    Ok(Answer { status, line })
}

// What is told of a run that traps at this clock: the run within the clock, and the trap.
fn told_trap(
    alloc: Global,
    sources: &Sources<'_>,
    params: &Params,
    program: &Program,
    inputs: &Inputs,
    clock: u32,
    cause: Cause,
) -> Result<Answer, Memory>
    requires clock { clock ≤ most_cycles }
    requires cut { IsCutOff (outcome_of params.now program.now inputs.now clock) }
    ensures { IfOk result (λ a. a ≡ ends_with Status.Trap
        (cut_in (constants_of params.now) (texts_in sources.now) program.now (outcome_of params.now program.now inputs.now clock)
        ++ trap_line clock cause)) }
{
    let mut line = told_cut(alloc, sources, params, program, inputs, clock)?;
    append_trap(&mut line, clock, cause)?;
    let status = Status::Trap;
    Ok(Answer { status, line })
}

// What is told of a run that this limit cuts off.
fn told_cut(
    alloc: Global,
    sources: &Sources<'_>,
    params: &Params,
    program: &Program,
    inputs: &Inputs,
    limit: u32,
) -> Result<Bytes, Memory>
    requires limit { limit ≤ most_cycles }
    requires cut { IsCutOff (outcome_of params.now program.now inputs.now limit) }
    ensures { IfOk result (λ text. text
        ≡ cut_in (constants_of params.now) (texts_in sources.now) program.now (outcome_of params.now program.now inputs.now limit)) }
{
    match advance(alloc, params, program, inputs, limit) {
        Ok(progress) => halt_of(alloc, sources, &progress),
        Err(Stop::Memory) => Err(Memory::Memory),
        Err(_) => unreachable!(),
    }
}

// The cycles of a run, and the state behind them.
fn text_of(alloc: Global, sources: &Sources<'_>, progress: &Progress) -> Result<Bytes, Memory>
    ensures { IfOk result (λ text. text ≡ progress_text (texts_in sources.now) progress.now) }
{
    let mut text = Bytes::new(alloc);
    append_cycles(alloc, &mut text, sources, &progress.events)?;
    append_stand(&mut text, &progress.state)?;
    Ok(text)
}

// The same of a run that is cut off, and where it would go on.
fn halt_of(alloc: Global, sources: &Sources<'_>, progress: &Progress) -> Result<Bytes, Memory>
    ensures { IfOk result (λ text. text ≡ halt_text (texts_in sources.now) progress.now) }
{
    let mut text = text_of(alloc, sources, progress)?;
    append_next(alloc, &mut text, sources, &progress.events)?;
    Ok(text)
}

// Adds `trap CLOCK CAUSE`.
fn append_trap(text: &mut Bytes, clock: u32, cause: Cause) -> Result<(), Memory>
    ensures { OnOk result (text.new ≡ text.old ++ trap_line clock cause) }
{
    text.append(b"trap ")?;
    append_number(text, u64::from(clock))?;
    text.append(b" ")?;
    text.append(cause_text(cause).as_bytes())?;
    text.append(b"\n")
}

// Adds `out of cycles LIMIT`.
fn append_limit(alloc: Global, text: &mut Bytes, limit: u32) -> Result<(), Memory>
    ensures { OnOk result (text.new ≡ text.old ++ limit_line limit) }
{
    let line = limit_text(alloc, limit)?;
    text.append(line.as_slice())
}

fn limit_text(alloc: Global, limit: u32) -> Result<Bytes, Memory>
    ensures { IfOk result (λ text. text ≡ limit_line limit) }
{
    let mut text = Bytes::copied(alloc, b"out of cycles ")?;
    append_number(&mut text, u64::from(limit))?;
    text.append(b"\n")?;
    Ok(text)
}
