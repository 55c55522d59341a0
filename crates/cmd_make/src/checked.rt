// The trace of a run, filled and checked in memory.
ghost use Rattle.std.specs.Prelude.{◌≡◌, ◌++◌, codes, IfOk};
ghost use Rattle.vm_field.specs.Limits.{most_cycles};
ghost use Rattle.air_kit.specs.Acceptance.{IsAccepted};
ghost use Rattle.air_kit.specs.Traces.{HasCounts};
ghost use Rattle.statement.specs.Inputs.{given_of};
ghost use Rattle.vm_state.specs.Views.{state_of};
ghost use Rattle.cmd_run.specs.Courses.{HasRun};
ghost use Rattle.cmd_kit.specs.MakeEnds.{make_lines};

use air_kit::{Public, Trace};
use checker::{Refused, Seed, check};
use cmd_run::{Course, run_text};
use fill_files::{FILL_PIECES, statement_of_run, trace_of_run};
use rpo_hash::Params;
use std::alloc::Global;
use std::thread::Threads;
use vm_field::{Bytes, Memory};
use vm_io::Gate;
use vm_state::{Inputs, State};

/// The lines of a run on these inputs: its trace is filled, and checked for its statement.
///
/// # Errors
///
/// `Memory` where the system gave none for the trace, for its check or for the lines.
pub(crate) fn checked_lines<R: Threads + Sync, G: Gate>(
    rt: &R,
    alloc: Global,
    seed: Seed,
    gate: &G,
    constants: Params,
    inputs: Inputs,
    course: Course,
) -> Result<Bytes, Memory>
    requires { HasRun constants course.program (given_of inputs) most_cycles course.run }
    ensures { IfOk result (λ lines. lines ≡ make_lines (state_of course.run.state)) }
{
    let Course { program, run } = course;
    let (trace, end) = trace_of_run(rt, alloc, &constants, &program, run, FILL_PIECES, gate)?;
    let lines = lines_of(alloc, &end.state)?;
    let statement = statement_of_run(alloc, program, inputs, &end)?;
    let public = Public {
        params: constants,
        statement,
    };
    check_accepted(rt, alloc, seed, gate, trace, public)?;
    Ok(lines)
}

// Checks a trace that is accepted, so that nothing but memory can be wanting.
fn check_accepted<R: Threads + Sync, G: Gate>(
    rt: &R,
    alloc: Global,
    seed: Seed,
    gate: &G,
    trace: Trace,
    public: Public,
) -> Result<(), Memory>
    requires accepted { IsAccepted public trace }
    requires counts { HasCounts trace }
{
    match check(rt, alloc, seed, trace, public, 1, gate) {
        Ok(_) => Ok(()),
        Err(Refused::Memory) => Err(Memory::Memory),
        Err(Refused::Fault(_) | Refused::Bus { .. }) => unreachable!(),
    }
}

// `cycles N`, `outputs O1 O2 ..` and `accepted`
fn lines_of(alloc: Global, state: &State) -> Result<Bytes, Memory>
    ensures { IfOk result (λ lines. lines ≡ make_lines (state_of state.now)) }
{
    let mut lines = run_text(alloc, state)?;
    lines.append(b"accepted\n")?;
    Ok(lines)
}
