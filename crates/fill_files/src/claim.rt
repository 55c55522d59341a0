ghost use Rattle.std.specs.Prelude.{◌≡◌, ◌≤◌, length, IfOk};
ghost use Rattle.vm_field.specs.Limits.{most_outputs};
ghost use Rattle.statement.specs.Statements.{stated_of};
ghost use Rattle.fill_files.specs.RunFiles.{IsStatementFileOf, claim_with};

use crate::tracing::RunEnd;
use block_tree::Program;
use statement::write_statement;
use std::alloc::Global;
use vm_field::{Bytes, Felts, Memory};
use vm_state::{Inputs, State, Statement};

/// The statement file of a run that left this: the program's digest and kernel, the stack that it
/// began with, and the whole stack that it ended with, top first.
///
/// # Errors
///
/// `Memory` where the system gave none for the outputs or the bytes.
pub fn statement_file_of_run(
    alloc: Global,
    program: Program,
    inputs: Inputs,
    end: &RunEnd,
) -> Result<Bytes, Memory>
    requires { length end.now.state.stack ≤ most_outputs }
    ensures { IfOk result (IsStatementFileOf (claim_with end.now.digest program.kernel inputs.stack end.now.state.stack)) }
{
    let statement = statement_of_run(alloc, program, inputs, end)?;
    written(alloc, &statement)
}

/// The statement of a run that left this, as `statement_file_of_run` writes it.
///
/// # Errors
///
/// `Memory` where the system gave none for the outputs.
pub fn statement_of_run(
    alloc: Global,
    program: Program,
    inputs: Inputs,
    end: &RunEnd,
) -> Result<Statement, Memory>
    requires { length end.now.state.stack ≤ most_outputs }
    ensures { IfOk result (λ s. stated_of s ≡ claim_with end.now.digest program.kernel inputs.stack end.now.state.stack) }
{
    let outputs = cells_of(alloc, &end.state)?;
    Ok(Statement::new(end.digest, program.kernel, inputs.stack, outputs))
}

// The file of a statement.
#[tactic(auto, using(crate::proofs::TextLemmas::short_text))]
fn written(alloc: Global, statement: &Statement) -> Result<Bytes, Memory>
    ensures { IfOk result (IsStatementFileOf (stated_of statement.now)) }
{
    write_statement(alloc, statement)
}

// All cells of the stack, top first.
fn cells_of(alloc: Global, state: &State) -> Result<Felts, Memory>
    ensures cells { IfOk result (λ cells. cells ≡ state.now.stack) }
    ensures full { IfOk result (λ cells. 16 ≤ length cells) }
{
    let mut cells = Felts::new(alloc);
    for cell in 0..state.depth() {
        cells.push(state.peek(cell))?;
    }
    Ok(cells)
}
