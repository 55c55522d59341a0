ghost use Rattle.std.specs.Prelude.{◌≡◌, ◌≤◌, length, IfOk, Ok};
ghost use Rattle.vm_field.specs.Limits.{most_outputs};
ghost use Rattle.rpo_hash.specs.Constants.{constants_of};
ghost use Rattle.block_tree.specs.Trees.{tree_digest};
ghost use Rattle.block_tree.specs.TreeView.{tree_of};
ghost use Rattle.processor.specs.Executed.{WasExecuted};
ghost use Rattle.air_kit.specs.Traces.{HasCounts};
ghost use Rattle.table_file.specs.Files.{AreTables, bytes_of, trace_of};
ghost use Rattle.fill_files.specs.Inside.{IsShort};
ghost use Rattle.fill_files.specs.RunFiles.{IsFileOfRun, most_table_bytes};

use crate::tracing::{RunEnd, tables_of_run};
use air_kit::Trace;
use block_tree::Program;
use processor::Run;
use rpo_hash::Params;
use std::alloc::Global;
use std::thread::Threads;
use table_file::file_laws;
use vm_field::Memory;
use vm_io::Gate;

/// In how many pieces the commands have permutations filled.
pub const FILL_PIECES: usize = 4;

/// The trace of a run that was executed, whose table file is one of the run and reads as the trace, and
/// what is left of the run. Its events are given up before the small tables are made. Permutations are filled in so many pieces at
/// once, of which each goes through the gate in each round; nothing of what comes depends on the number.
///
/// # Errors
///
/// `Memory` where the system gave none for the tables.
pub fn trace_of_run<R: Threads + Sync, G: Gate>(
    rt: &R,
    alloc: Global,
    params: &Params,
    program: &Program,
    run: Run,
    pieces: usize,
    gate: &G,
) -> Result<(Trace, RunEnd), Memory>
    requires executed { WasExecuted params.now program.now run }
    requires pieces { (1 ≤ pieces) × (pieces ≤ 64) }
    ensures file { IfOk result (λ r. IsFileOfRun params.now program.now run (bytes_of r.0)) }
    ensures reads { IfOk result (λ r. trace_of (bytes_of r.0) ≡ Ok r.0) }
    ensures counts { IfOk result (λ r. HasCounts r.0) }
    ensures state { IfOk result (λ r. r.1.state ≡ run.state) }
    ensures digest { IfOk result (λ r. r.1.digest ≡ tree_digest (constants_of params.now) (tree_of program.now.tree)) }
    ensures depth { IfOk result (λ r. length r.1.state.stack ≤ most_outputs) }
{
    let (trace, end) = tables_of_run(rt, alloc, params, program, run, pieces, gate)?;
    known_file(&trace);
    Ok((trace, end))
}

// What is known of the file of a trace. A run does nothing.
#[tactic(auto, using(crate::proofs::FileLemmas::short_file))]
fn known_file(trace: &Trace)
    requires counts { HasCounts trace.now }
    requires short { IsShort trace.now }
    ensures reads { trace_of (bytes_of trace.now) ≡ Ok trace.now }
    ensures short { length (bytes_of trace.now) ≤ most_table_bytes }
{
    known_tables(trace);
    file_laws();
}

// Looks at the tables, so that a proof learns their shapes. A run does nothing.
#[tactic(auto, using(crate::proofs::FileLemmas::are_tables))]
fn known_tables(trace: &Trace)
    ensures { AreTables trace.now }
{
    let _ = (trace.main.rows(), trace.range.rows(), trace.hasher.rows());
    let _ = (trace.bitwise.rows(), trace.memory.rows());
    let _ = (trace.kernel.rows(), trace.left.rows());
}
