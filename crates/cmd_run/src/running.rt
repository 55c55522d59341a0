// `run`: the files that it reads, and then the run of the program, its two files and its outputs.
ghost use Rattle.std.specs.Prelude.{◌≤◌, length, option_map, Some};
ghost use Rattle.vm_field.specs.Limits.{most_name_bytes};
ghost use Rattle.cmd_kit.specs.Outcomes.{EndsIn, either};
ghost use Rattle.cmd_kit.specs.RunSteps.{run_steps};
ghost use Rattle.cmd_run.specs.Naming.{AreOptions, outputs_from};

use crate::course::course_of;
use crate::outputs::Outputs;
use crate::ran::save_run;
use cmd_kit::{Outcome, load_inputs, load_kernel, load_params, load_source};
use std::alloc::Global;
use std::thread::Threads;
use vm_io::{Gate, Shelf};

/// What the words of `run` give behind the source.
#[derive(Clone, Copy)]
pub struct RunOptions<'a> {
    pub inputs: &'a str,
    pub outputs: Outputs<'a>,
    pub kernel: Option<&'a str>,
    /// The most cycles.
    pub limit: u32,
}

/// `run`: reads the parameters, the source, the inputs and the kernel, if one is named, runs the
/// program within so many cycles, and writes its tables and its statement. The tables are filled in `FILL_PIECES` pieces at once, of
/// which each goes through the gate.
pub fn run_source_files<R: Threads + Sync, F: Shelf, G: Gate>(
    rt: &R,
    alloc: Global,
    shelf: &mut F,
    gate: &G,
    params: &str,
    source: &str,
    options: RunOptions<'_>,
) -> Outcome
    requires params { length params.now ≤ most_name_bytes }
    requires source { length source.now ≤ most_name_bytes }
    requires options { AreOptions options }
    ensures { EndsIn (Some (run_steps params.now source.now options.entry.inputs.now (outputs_from options.entry.outputs)
        (option_map (λ k. k.now) options.entry.kernel) options.entry.limit)) result (F.state shelf.old) (F.state shelf.new) }
{
    match read_and_run(rt, alloc, shelf, gate, params, source, options) {
        Ok(end) | Err(end) => end,
    }
}

// Reads the files, one after another, runs the program and writes the files of its run.
fn read_and_run<R: Threads + Sync, F: Shelf, G: Gate>(
    rt: &R,
    alloc: Global,
    shelf: &mut F,
    gate: &G,
    params: &str,
    source: &str,
    options: RunOptions<'_>,
) -> Result<Outcome, Outcome>
    requires params { length params.now ≤ most_name_bytes }
    requires source { length source.now ≤ most_name_bytes }
    requires options { AreOptions options }
    ensures { EndsIn (Some (run_steps params.now source.now options.entry.inputs.now (outputs_from options.entry.outputs)
        (option_map (λ k. k.now) options.entry.kernel) options.entry.limit)) (either result) (F.state shelf.old) (F.state shelf.new) }
{
    let constants = load_params(alloc, shelf, params)?;
    let source = load_source(alloc, shelf, source)?;
    let inputs = load_inputs(alloc, shelf, options.inputs)?;
    let kernel = load_kernel(alloc, shelf, options.kernel)?;
    let course = course_of(
        alloc,
        &constants,
        &source,
        kernel.as_ref(),
        &inputs,
        options.limit,
    )?;
    Ok(save_run(
        rt,
        alloc,
        shelf,
        gate,
        &constants,
        inputs,
        course,
        options.outputs,
    ))
}
