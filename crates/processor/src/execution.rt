ghost use Rattle.std.specs.Prelude.{◌≤◌, IfOk};
ghost use Rattle.vm_field.specs.Limits.{most_cycles};
ghost use Rattle.processor.specs.Advanced.{Advances};
ghost use Rattle.processor.specs.Executed.{Executes, WasExecuted};

use crate::ended::run_within;
use crate::progress::Progress;
use crate::run::Run;
use block_tree::Program;
use machine_cycles::Stop;
use rpo_hash::Params;
use std::alloc::Global;
use vm_field::Felts;
use vm_state::Inputs;

/// Runs a program from its inputs. Before each cycle the clock must be below the limit.
///
/// # Errors
///
/// `Stop::Trap` at the first cycle that traps, with the clock before it; `Stop::OutOfCycles` where
/// the program has not ended when the clock is the limit; `Stop::Memory` where the system gave no
/// memory.
pub fn execute(
    alloc: Global,
    params: &Params,
    program: &Program,
    inputs: &Inputs,
    limit: u32,
) -> Result<Run, Stop>
    requires limit { limit ≤ most_cycles }
    ensures is { Executes result params.now program.now inputs.now limit }
    ensures was { IfOk result (WasExecuted params.now program.now) }
{
    let ended = run_within(alloc, params, program, inputs, limit)?;
    let progress = ended.progress;
    if !progress.is_done {
        return Err(Stop::OutOfCycles);
    }
    let advice = inputs.advice.as_slice();
    let taken = advice.len() - progress.state.advice_left();
    Ok(Run {
        tape: Felts::copied(alloc, &advice[..taken])?,
        state: progress.state,
        events: progress.events,
        digest: ended.digest,
        permutations: ended.permutations,
    })
}

/// Runs a program from its inputs, as far as the limit lets it. Before each cycle the clock must be
/// below the limit; the run that is not, is cut off there.
///
/// # Errors
///
/// `Stop::Trap` at the first cycle that traps, with the clock before it; `Stop::Memory` where the
/// system gave no memory. It is never out of cycles.
pub fn advance(
    alloc: Global,
    params: &Params,
    program: &Program,
    inputs: &Inputs,
    limit: u32,
) -> Result<Progress, Stop>
    requires limit { limit ≤ most_cycles }
    ensures { Advances result params.now program.now inputs.now limit }
{
    Ok(run_within(alloc, params, program, inputs, limit)?.progress)
}
