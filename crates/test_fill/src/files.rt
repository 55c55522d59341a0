ghost use Rattle.std.specs.Prelude.{◌≤◌, length, IfOk};
ghost use Rattle.vm_field.specs.Limits.{most_outputs};
ghost use Rattle.air_kit.specs.Traces.{HasCounts};

use crate::tests::{NO_CONSTANTS, inputs_of_ones, program};
use air_kit::Trace;
use block_tree::{Program, Tree};
use fill_files::{RunEnd, statement_file_of_run, trace_of_run};
use machine_cycles::Stop;
use op_pack::Batches;
use processor::execute;
use std::alloc::Global;
use std::test::Fail;
use std::thread::Threads;
use table_file::encode;
use vm_field::{Bytes, Felt, Memory};
use vm_io::OpenGate;
use vm_state::Inputs;

// A batch, and the lengths of the two files of its run.
type Row = ([u32; 8], usize, usize);

// The empty span; and push.2 push.3 add push.7, behind whose last PUSH stands a NOOP.
static ROWS: [Row; 2] = [
    ([0; 8], 3748, 145),
    ([145318597, 2, 3, 7, 0, 0, 0, 0], 5844, 149),
];

// The length of the table file, or 0 where there is no memory for it.
fn table_length(alloc: Global, trace: &Trace) -> usize
    requires { HasCounts trace.now }
{
    match encode(alloc, trace) {
        Ok(file) => file.len(),
        Err(_) => 0,
    }
}

// The length of the table file of a run that is filled in so many pieces, and what the run leaves.
fn tabled<R: Threads + Sync>(
    rt: &R,
    alloc: Global,
    program: &Program,
    inputs: &Inputs,
    pieces: usize,
) -> Result<(usize, RunEnd), Stop>
    requires { (1 ≤ pieces) × (pieces ≤ 64) }
    ensures depth { IfOk result (λ r. length r.1.state.stack ≤ most_outputs) }
{
    let run = execute(alloc, &NO_CONSTANTS, program, inputs, 100)?;
    let (trace, end) = trace_of_run(rt, alloc, &NO_CONSTANTS, program, run, pieces, &OpenGate)?;
    Ok((table_length(alloc, &trace), end))
}

// The lengths of the table file and of the statement file of a run.
fn lengths<R: Threads + Sync>(
    rt: &R,
    alloc: Global,
    program: Program,
    inputs: Inputs,
    pieces: usize,
) -> Result<(usize, usize), Stop>
    requires { (1 ≤ pieces) × (pieces ≤ 64) }
{
    let (table, end) = tabled(rt, alloc, &program, &inputs, pieces)?;
    let statement = statement_file_of_run(alloc, program, inputs, &end)?;
    Ok((table, statement.len()))
}

// The program of a batch.
fn span(alloc: Global, batch: &[u32; 8]) -> Result<Program, Memory> {
    let batches = Batches::of(alloc, batch.map(Felt::from_u32))?;
    program(alloc, Tree::Span(batches))
}

// Whether the two files of the run of a batch have these lengths.
fn has_lengths<R: Threads + Sync>(
    rt: &R,
    alloc: Global,
    row: &Row,
    pieces: usize,
) -> Result<bool, Stop>
    requires { (1 ≤ pieces) × (pieces ≤ 64) }
{
    let inputs = inputs_of_ones(alloc, 0)?;
    let found = lengths(rt, alloc, span(alloc, &row.0)?, inputs, pieces)?;
    Ok(found == (row.1, row.2))
}

#[test]
fn files_have_their_lengths(rt: HostRuntime) {
    for row in &ROWS {
        for pieces in [1, 4, 64] {
            assert_eq!(rt; has_lengths(&rt, rt.alloc(), row, pieces), Ok(true));
        }
    }
}

// Four permutations behind the one of the program's hash.
const PERMUTATIONS: [u32; 8] = [
    29 * (1 + (1 << 7) + (1 << 14) + (1 << 21)),
    0,
    0,
    0,
    0,
    0,
    0,
    0,
];

// The table file of a run of permutations that is filled in so many pieces.
fn permuted<R: Threads + Sync>(rt: &R, alloc: Global, pieces: usize) -> Result<Bytes, Stop>
    requires { (1 ≤ pieces) × (pieces ≤ 64) }
{
    let program = span(alloc, &PERMUTATIONS)?;
    let run = execute(
        alloc,
        &NO_CONSTANTS,
        &program,
        &inputs_of_ones(alloc, 7)?,
        100,
    )?;
    let (trace, _) = trace_of_run(rt, alloc, &NO_CONSTANTS, &program, run, pieces, &OpenGate)?;
    Ok(encode(alloc, &trace)?)
}

#[test]
fn pieces_fill_one_file(rt: HostRuntime) -> Result<(), Fail> {
    let file = permuted(&rt, rt.alloc(), 1);
    assert!(rt; file.is_ok());
    for pieces in [2, 4, 64] {
        assert!(rt; permuted(&rt, rt.alloc(), pieces) == file);
    }
    Ok(())
}
