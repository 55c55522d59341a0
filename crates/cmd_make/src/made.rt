// What is written and told of a workload: its source, its inputs, and the lines of its run.
ghost use Rattle.std.specs.Prelude.{◌≤◌, IfErr, IfOk, None};
ghost use Rattle.vm_field.specs.Limits.{most_cycles};
ghost use Rattle.rpo_hash.specs.Constants.{constants_of};
ghost use Rattle.workloads.specs.Workloads.{most_turns};
ghost use Rattle.cmd_run.specs.Courses.{Stopped};
ghost use Rattle.cmd_kit.specs.MakeSteps.{made_given, made_source};
ghost use Rattle.cmd_make.specs.Making.{IsMade};

use crate::checked::checked_lines;
use checker::Seed;
use cmd_kit::{Outcome, SourceFile};
use cmd_run::course_of;
use rpo_hash::Params;
use statement::write_inputs;
use std::alloc::Global;
use std::thread::Threads;
use vm_field::{Bytes, MOST_CYCLES};
use vm_io::Gate;
use workloads::{Workload, make};

/// The bytes of the two files, and the lines that are printed.
#[derive(Drop)]
pub(crate) struct Made {
    pub source: Bytes,
    pub inputs: Bytes,
    pub lines: Bytes,
}

/// Makes a workload of so many turns, whose source is to have this name, runs it and checks its trace. An `Err` is how the
/// command ends.
pub(crate) fn made_for<R: Threads + Sync, G: Gate>(
    rt: &R,
    alloc: Global,
    seed: Seed,
    gate: &G,
    constants: Params,
    turns: u32,
    name: &str,
) -> Result<Made, Outcome>
    requires some { 1 ≤ turns }
    requires few { turns ≤ most_turns }
    ensures made { IfOk result (IsMade (constants_of constants) turns name.now) }
    ensures stopped { IfErr result (Stopped (constants_of constants) (made_source name.now turns) None (made_given turns) most_cycles) }
{
    let Ok(Workload { source, inputs }) = make(alloc, turns) else {
        return Err(Outcome::Memory);
    };
    let Ok(text) = write_inputs(alloc, &inputs) else {
        return Err(Outcome::Memory);
    };
    let source = SourceFile { name, text: source };
    let course = course_of(alloc, &constants, &source, None, &inputs, MOST_CYCLES)?;
    let Ok(lines) = checked_lines(rt, alloc, seed, gate, constants, inputs, course) else {
        return Err(Outcome::Memory);
    };
    Ok(Made {
        source: source.text,
        inputs: text,
        lines,
    })
}
