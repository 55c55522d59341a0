//! `trace`: the files that it reads, and then the run of the program, cycle by cycle.
ghost use Rattle.std.specs.Prelude.{◌≡◌, ◌≤◌, length, option_map, IfOk, IfSome, Ok, Some};
ghost use Rattle.vm_field.specs.Limits.{most_cycles, most_name_bytes, most_source_bytes};
ghost use Rattle.vm_io.specs.Shelf.{ShelfState};
ghost use Rattle.rpo_hash.specs.Constants.{constants_of};
ghost use Rattle.statement.specs.Inputs.{given_of};
ghost use Rattle.cmd_kit.specs.Outcomes.{EndsIn, SaysAnswer, either};
ghost use Rattle.cmd_kit.specs.SourceEnds.{AssemblesFiles};
ghost use Rattle.cmd_kit.specs.Sources.{file_of};
ghost use Rattle.show_trace.specs.Scenes.{source_texts};
ghost use Rattle.show_trace.specs.TraceSteps.{trace_steps, told, tracing_steps};

use crate::scenes::read_scenes;
use crate::telling::told_run;
use block_tree::Program;
use cmd_kit::{
    Answer, Outcome, SourceFile, assemble_sources, load_inputs, load_kernel, load_params,
    load_source, name_of_place, refused_source,
};
use masm_link::AsmError;
use masm_places::Sources;
use rpo_hash::Params;
use std::alloc::Global;
use vm_field::Memory;
use vm_io::Shelf;
use vm_state::Inputs;

/// What the words of `trace` give.
#[derive(Clone, Copy)]
pub struct TraceNames<'a> {
    pub params: &'a str,
    pub source: &'a str,
    pub inputs: &'a str,
    pub kernel: Option<&'a str>,
    /// The most cycles.
    pub limit: u32,
}

/// `trace`: reads the parameters, the source, the inputs and the kernel, if one is named, and tells the cycles of the program's run
/// up to its end, its trap or the limit.
pub fn trace_files<F: Shelf>(alloc: Global, shelf: &mut F, names: TraceNames<'_>) -> Outcome
    requires params { length names.params.now ≤ most_name_bytes }
    requires source { length names.source.now ≤ most_name_bytes }
    requires inputs { length names.inputs.now ≤ most_name_bytes }
    requires kernel { IfSome names.kernel (λ k. length k.now ≤ most_name_bytes) }
    requires limit { names.limit ≤ most_cycles }
    ensures { EndsIn (Some (trace_steps names.entry.params.now names.entry.source.now names.entry.inputs.now
        (option_map (λ k. k.now) names.entry.kernel) names.entry.limit)) result (F.state shelf.old) (F.state shelf.new) }
{
    match read_and_trace(alloc, shelf, names) {
        Ok(end) | Err(end) => end,
    }
}

// Reads the files, one after another, and tells the run.
fn read_and_trace<F: Shelf>(
    alloc: Global,
    shelf: &mut F,
    names: TraceNames<'_>,
) -> Result<Outcome, Outcome>
    requires params { length names.params.now ≤ most_name_bytes }
    requires source { length names.source.now ≤ most_name_bytes }
    requires inputs { length names.inputs.now ≤ most_name_bytes }
    requires kernel { IfSome names.kernel (λ k. length k.now ≤ most_name_bytes) }
    requires limit { names.limit ≤ most_cycles }
    ensures { EndsIn (Some (trace_steps names.entry.params.now names.entry.source.now names.entry.inputs.now
        (option_map (λ k. k.now) names.entry.kernel) names.entry.limit)) (either result) (F.state shelf.old) (F.state shelf.new) }
{
    let constants = load_params(alloc, shelf, names.params)?;
    let source = load_source(alloc, shelf, names.source)?;
    let inputs = load_inputs(alloc, shelf, names.inputs)?;
    let kernel = load_kernel(alloc, shelf, names.kernel)?;
    Ok(trace_source(
        alloc,
        &constants,
        &source,
        kernel.as_ref(),
        &inputs,
        names.limit,
    ))
}

// Assembles a source and tells the run of its program, or where the source is refused.
fn trace_source(
    alloc: Global,
    constants: &Params,
    source: &SourceFile<'_>,
    kernel: Option<&SourceFile<'_>>,
    inputs: &Inputs,
    limit: u32,
) -> Outcome
    requires source { length source.now.text ≤ most_source_bytes }
    requires kernel { IfSome kernel (λ k. length k.now.text ≤ most_source_bytes) }
    requires limit { limit ≤ most_cycles }
    ensures { (s : ShelfState) → EndsIn (Some (tracing_steps (constants_of constants.now) (file_of source.now) (given_of inputs.now) limit
        (option_map (λ k. file_of k.now) kernel.entry))) result s s }
{
    match assemble_sources(alloc, constants, source, kernel) {
        Ok(program) => trace_program(alloc, constants, source, kernel, &program, inputs, limit),
        Err(
            AsmError::Bad {
                in_kernel,
                line,
                column,
                cause,
            },
        ) => {
            let name = name_of_place(in_kernel, source, kernel);
            refused_source(alloc, name, line, column, cause)
        }
        Err(AsmError::Memory) => Outcome::Memory,
    }
}

// Runs a program and tells its cycles.
fn trace_program(
    alloc: Global,
    constants: &Params,
    source: &SourceFile<'_>,
    kernel: Option<&SourceFile<'_>>,
    program: &Program,
    inputs: &Inputs,
    limit: u32,
) -> Outcome
    requires source { length source.now.text ≤ most_source_bytes }
    requires kernel { IfSome kernel (λ k. length k.now.text ≤ most_source_bytes) }
    requires limit { limit ≤ most_cycles }
    requires assembled { AssemblesFiles (constants_of constants.now) (file_of source.now) (option_map (λ k. file_of k.now) kernel)
        (Ok program.now) }
    ensures { SaysAnswer result (told (constants_of constants.now) (source_texts (file_of source.now) (option_map (λ k. file_of k.now) kernel.entry))
        program.now (given_of inputs.now) limit) }
{
    match told_program(alloc, constants, source, kernel, program, inputs, limit) {
        Ok(answer) => Outcome::Ends(answer),
        Err(Memory::Memory) => Outcome::Memory,
    }
}

// What is told of a program.
fn told_program(
    alloc: Global,
    constants: &Params,
    source: &SourceFile<'_>,
    kernel: Option<&SourceFile<'_>>,
    program: &Program,
    inputs: &Inputs,
    limit: u32,
) -> Result<Answer, Memory>
    requires source { length source.now.text ≤ most_source_bytes }
    requires kernel { IfSome kernel (λ k. length k.now.text ≤ most_source_bytes) }
    requires limit { limit ≤ most_cycles }
    requires assembled { AssemblesFiles (constants_of constants.now) (file_of source.now) (option_map (λ k. file_of k.now) kernel)
        (Ok program.now) }
    ensures { IfOk result (λ a. a ≡ told (constants_of constants.now)
        (source_texts (file_of source.now) (option_map (λ k. file_of k.now) kernel.entry)) program.now (given_of inputs.now) limit) }
{
    let scenes = read_scenes(alloc, source, kernel)?;
    let sources = Sources::new(alloc, &scenes.program, scenes.own, scenes.kernel.as_ref())?;
    told_run(alloc, &sources, constants, program, inputs, limit)
}
