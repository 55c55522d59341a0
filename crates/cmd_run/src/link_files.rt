// The two files of a link's run, and the stack that it leaves.
ghost use Rattle.std.specs.Prelude.{◌≡◌, ◌≤◌, length, IfErr, IfOk};
ghost use Rattle.vm_field.specs.Limits.{most_name_bytes};
ghost use Rattle.rpo_hash.specs.Constants.{constants_of};
ghost use Rattle.air_kit.specs.Traces.{HasCounts};
ghost use Rattle.block_tree.specs.TreeView.{tree_of};
ghost use Rattle.processor.specs.Executed.{WasExecuted};
ghost use Rattle.statement.specs.Inputs.{given_of};
ghost use Rattle.table_file.specs.Files.{bytes_of};
ghost use Rattle.fill_files.specs.RunFiles.{IsFileOfRun, IsStatementFileOf, claim_of_run};
ghost use Rattle.cmd_run.specs.Linking.{EndsSaving, SavesLink, SavesTwo, EndsTwo};
ghost use Rattle.cmd_run.specs.Naming.{outputs_from};

use crate::course::Course;
use crate::outputs::Outputs;
use air_kit::Trace;
use cmd_kit::{Outcome, save, save_pieces};
use fill_files::{FILL_PIECES, statement_file_of_run, trace_of_run};
use rpo_hash::Params;
use std::alloc::Global;
use std::thread::Threads;
use table_file::TablePieces;
use vm_field::{Bytes, Felts, Memory};
use vm_io::{Gate, Shelf};
use vm_state::{Inputs, State};

// What is written of a link's run, and what it leaves.
#[derive(Drop)]
struct MadeLink {
    trace: Trace,
    statement: Bytes,
    left: Felts,
}

/// Writes the tables of a run and then its statement. The answer is the stack that the run left.
pub(crate) fn save_link<R: Threads + Sync, F: Shelf, G: Gate>(
    rt: &R,
    alloc: Global,
    shelf: &mut F,
    gate: &G,
    constants: &Params,
    inputs: Inputs,
    course: Course,
    outputs: Outputs<'_>,
) -> Result<Felts, Outcome>
    requires executed { WasExecuted constants.now course.program course.run }
    requires table { length outputs.table.now ≤ most_name_bytes }
    requires statement { length outputs.statement.now ≤ most_name_bytes }
    ensures left { IfOk result (λ left. left ≡ course.run.state.stack) }
    ensures saves { IfOk result (λ _. SavesLink constants.now course.program course.run (outputs_from outputs.entry) (given_of inputs)
        (F.state shelf.old) (F.state shelf.new)) }
    ensures ends { IfErr result (λ end. EndsSaving constants.now course.program course.run (outputs_from outputs.entry) (given_of inputs) end
        (F.state shelf.old) (F.state shelf.new)) }
{
    match made_of(rt, alloc, gate, constants, inputs, course) {
        Ok(made) => save_both(alloc, shelf, made, outputs),
        Err(_) => Err(Outcome::Memory),
    }
}

// Makes all that is written, before anything is.
#[tactic(auto, using(crate::proofs::RunLemmas::claims_run))]
fn made_of<R: Threads + Sync, G: Gate>(
    rt: &R,
    alloc: Global,
    gate: &G,
    constants: &Params,
    inputs: Inputs,
    course: Course,
) -> Result<MadeLink, Memory>
    requires executed { WasExecuted constants.now course.program course.run }
    ensures table { IfOk result (λ made. IsFileOfRun constants.now course.program course.run (bytes_of made.trace)) }
    ensures counts { IfOk result (λ made. HasCounts made.trace) }
    ensures statement { IfOk result (λ made. IsStatementFileOf (claim_of_run (constants_of constants.now) (tree_of course.program.tree)
        course.program.kernel inputs.stack course.run.state.stack) made.statement) }
    ensures left { IfOk result (λ made. made.left ≡ course.run.state.stack) }
{
    let Course { program, run } = course;
    let (trace, end) = trace_of_run(rt, alloc, constants, &program, run, FILL_PIECES, gate)?;
    let left = stack_of(alloc, &end.state)?;
    let statement = statement_file_of_run(alloc, program, inputs, &end)?;
    Ok(MadeLink {
        trace,
        statement,
        left,
    })
}

// The cells of a stack, top first.
fn stack_of(alloc: Global, state: &State) -> Result<Felts, Memory>
    ensures { IfOk result (λ cells. cells ≡ state.now.stack) }
{
    let mut cells = Felts::new(alloc);
    for cell in 0..state.depth() {
        cells.push(state.peek(cell))?;
    }
    Ok(cells)
}

// Writes the two files.
fn save_both<F: Shelf>(
    alloc: Global,
    shelf: &mut F,
    made: MadeLink,
    outputs: Outputs<'_>,
) -> Result<Felts, Outcome>
    requires counts { HasCounts made.trace }
    requires table { length outputs.table.now ≤ most_name_bytes }
    requires statement { length outputs.statement.now ≤ most_name_bytes }
    ensures left { IfOk result (λ left. left ≡ made.left) }
    ensures saves { IfOk result (λ _. SavesTwo (bytes_of made.trace) made.statement (outputs_from outputs.entry) (F.state shelf.old) (F.state shelf.new)) }
    ensures ends { IfErr result (λ end. EndsTwo (bytes_of made.trace) made.statement (outputs_from outputs.entry) end
        (F.state shelf.old) (F.state shelf.new)) }
{
    let mut pieces = TablePieces::new(&made.trace);
    save_pieces(alloc, shelf, outputs.table, &mut pieces)?;
    save(alloc, shelf, outputs.statement, made.statement.as_slice())?;
    Ok(made.left)
}
