// The two files of a run, and what is told of it.
ghost use Rattle.std.specs.Prelude.{◌≡◌, ◌≤◌, true, length, IfOk};
ghost use Rattle.vm_field.specs.Limits.{most_name_bytes};
ghost use Rattle.rpo_hash.specs.Constants.{constants_of};
ghost use Rattle.air_kit.specs.Traces.{HasCounts};
ghost use Rattle.block_tree.specs.TreeView.{tree_of};
ghost use Rattle.processor.specs.Executed.{WasExecuted};
ghost use Rattle.statement.specs.Inputs.{given_of};
ghost use Rattle.vm_state.specs.Views.{state_of};
ghost use Rattle.table_file.specs.Files.{bytes_of};
ghost use Rattle.fill_files.specs.RunFiles.{IsFileOfRun, IsStatementFileOf, claim_of_run};
ghost use Rattle.cmd_run.specs.Naming.{AreNamed, outputs_from};
ghost use Rattle.cmd_run.specs.Saves.{EndsRun, SavesBoth, SavesLast};
ghost use Rattle.cmd_kit.specs.RunEnds.{run_lines};

use crate::course::Course;
use crate::outputs::Outputs;
use crate::run_lines::run_text;
use air_kit::Trace;
use cmd_kit::{Outcome, Status, answered, save, save_pieces};
use fill_files::{FILL_PIECES, statement_file_of_run, trace_of_run};
use rpo_hash::Params;
use std::alloc::Global;
use std::thread::Threads;
use table_file::TablePieces;
use vm_field::{Bytes, Memory};
use vm_io::{Gate, Shelf};
use vm_state::Inputs;

// What is written of a run, and its line.
#[derive(Drop)]
struct Made {
    trace: Trace,
    statement: Bytes,
    line: Bytes,
}

/// Writes the tables of a run and then its statement, and tells its cycles and its outputs.
pub fn save_run<R: Threads + Sync, F: Shelf, G: Gate>(
    rt: &R,
    alloc: Global,
    shelf: &mut F,
    gate: &G,
    constants: &Params,
    inputs: Inputs,
    course: Course,
    outputs: Outputs<'_>,
) -> Outcome
    requires executed { WasExecuted constants.now course.program course.run }
    requires named { AreNamed outputs }
    ensures { EndsRun constants.now course.program course.run (outputs_from outputs.entry) (given_of inputs) result
        (F.state shelf.old) (F.state shelf.new) }
{
    match files_of(rt, alloc, gate, constants, inputs, course) {
        Ok(made) => save_made(alloc, shelf, made, outputs),
        Err(_) => Outcome::Memory,
    }
}

// Makes all that is written, before anything is.
#[tactic(auto, using(crate::proofs::RunLemmas::claims_run))]
fn files_of<R: Threads + Sync, G: Gate>(
    rt: &R,
    alloc: Global,
    gate: &G,
    constants: &Params,
    inputs: Inputs,
    course: Course,
) -> Result<Made, Memory>
    requires executed { WasExecuted constants.now course.program course.run }
    ensures table { IfOk result (λ made. IsFileOfRun constants.now course.program course.run (bytes_of made.trace)) }
    ensures counts { IfOk result (λ made. HasCounts made.trace) }
    ensures statement { IfOk result (λ made. IsStatementFileOf (claim_of_run (constants_of constants.now) (tree_of course.program.tree)
        course.program.kernel inputs.stack course.run.state.stack) made.statement) }
    ensures line { IfOk result (λ made. made.line ≡ run_lines (state_of course.run.state)) }
{
    let Course { program, run } = course;
    let (trace, end) = trace_of_run(rt, alloc, constants, &program, run, FILL_PIECES, gate)?;
    let line = run_text(alloc, &end.state)?;
    let statement = statement_file_of_run(alloc, program, inputs, &end)?;
    Ok(Made {
        trace,
        statement,
        line,
    })
}

// Writes the two files.
fn save_made<F: Shelf>(alloc: Global, shelf: &mut F, made: Made, outputs: Outputs<'_>) -> Outcome
    requires named { AreNamed outputs }
    requires counts { HasCounts made.trace }
    ensures { SavesBoth (bytes_of made.trace) made.statement made.line (outputs_from outputs.entry) result (F.state shelf.old) (F.state shelf.new) }
{
    let mut pieces = TablePieces::new(&made.trace);
    match save_pieces(alloc, shelf, outputs.table, &mut pieces) {
        Ok(()) => save_statement(alloc, shelf, outputs.statement, made.statement, made.line),
        Err(end) => end,
    }
}

// Writes the statement.
fn save_statement<F: Shelf>(
    alloc: Global,
    shelf: &mut F,
    name: &str,
    statement: Bytes,
    line: Bytes,
) -> Outcome
    requires { length name.now ≤ most_name_bytes }
    ensures { SavesLast name.now statement line result (F.state shelf.old) (F.state shelf.new) }
{
    match save(alloc, shelf, name, statement.as_slice()) {
        Ok(()) => answered(Status::Ok, Ok(line)),
        Err(end) => end,
    }
}
