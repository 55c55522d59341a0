// How a source runs: its program and the run to its end, or the answer why there is none.
ghost use Rattle.std.specs.Prelude.{◌≡◌, ◌≤◌, length, option_map, IfErr, IfOk, IfSome};
ghost use Rattle.vm_field.specs.Limits.{most_cycles, most_source_bytes};
ghost use Rattle.rpo_hash.specs.Constants.{constants_of};
ghost use Rattle.statement.specs.Inputs.{given_of};
ghost use Rattle.cmd_run.specs.Courses.{Came, Halts, HasRun, Stopped};
ghost use Rattle.cmd_kit.specs.Outcomes.{SaysStatus};
ghost use Rattle.cmd_kit.specs.Sources.{file_of};
ghost use Rattle.cmd_kit.specs.RunEnds.{limit_line, trap_line};

use crate::halt_lines::{limit_text, trap_text};
use block_tree::Program;
use cmd_kit::{
    Outcome, SourceFile, Status, answered, assemble_sources, name_of_place, refused_source,
};
use machine_cycles::Stop;
use masm_link::AsmError;
use processor::{Run, execute};
use rpo_hash::{Params, known_constants};
use std::alloc::Global;
use vm_field::Bytes;
use vm_ops::Cause;
use vm_state::Inputs;

/// A program and its run to the end.
#[derive(Drop)]
pub struct Course {
    pub program: Program,
    pub run: Run,
}

/// Assembles a source and runs its program. An `Err` is how the command ends: the source is refused, or
/// the run traps or does not end.
pub fn course_of(
    alloc: Global,
    constants: &Params,
    source: &SourceFile<'_>,
    kernel: Option<&SourceFile<'_>>,
    inputs: &Inputs,
    limit: u32,
) -> Result<Course, Outcome>
    requires source { length source.now.text ≤ most_source_bytes }
    requires kernel { IfSome kernel (λ k. length k.now.text ≤ most_source_bytes) }
    requires limit { limit ≤ most_cycles }
    ensures came { IfOk result (Came constants.now (file_of source.now) (option_map (λ k. file_of k.now) kernel.entry) (given_of inputs.now) limit) }
    ensures stopped { IfErr result (Stopped (constants_of constants.now) (file_of source.now)
        (option_map (λ k. file_of k.now) kernel.entry) (given_of inputs.now) limit) }
{
    match assemble_sources(alloc, constants, source, kernel) {
        Ok(program) => run_of(alloc, constants, program, inputs, limit),
        Err(
            AsmError::Bad {
                in_kernel,
                line,
                column,
                cause,
            },
        ) => {
            let name = name_of_place(in_kernel, source, kernel);
            Err(refused_source(alloc, name, line, column, cause))
        }
        Err(AsmError::Memory) => Err(Outcome::Memory),
    }
}

// Runs a program.
fn run_of(
    alloc: Global,
    constants: &Params,
    program: Program,
    inputs: &Inputs,
    limit: u32,
) -> Result<Course, Outcome>
    requires { limit ≤ most_cycles }
    ensures came { IfOk result (λ course. (course.program ≡ program) × HasRun constants.now program (given_of inputs.now) limit course.run) }
    ensures stopped { IfErr result (Halts (constants_of constants.now) program (given_of inputs.now) limit) }
{
    known_constants(constants);
    match execute(alloc, constants, &program, inputs, limit) {
        Ok(run) => Ok(Course { program, run }),
        Err(Stop::Trap { clock, cause }) => Err(trapped(alloc, clock, cause)),
        Err(Stop::OutOfCycles) => Err(out_of_cycles(alloc, limit)),
        Err(Stop::Memory) => Err(Outcome::Memory),
    }
}

#[tactic(auto, using(cmd_kit::proofs::OutcomeLemmas::says_line))]
fn trapped(alloc: Global, clock: u32, cause: Cause) -> Outcome
    ensures { SaysStatus result Status.Trap (trap_line clock cause) }
{
    answered(Status::Trap, trap_text(alloc, clock, cause))
}

#[tactic(auto, using(cmd_kit::proofs::OutcomeLemmas::says_line))]
fn out_of_cycles(alloc: Global, limit: u32) -> Outcome
    ensures { SaysStatus result Status.OutOfCycles (limit_line limit) }
{
    answered(Status::OutOfCycles, limit_text(alloc, limit))
}
