ghost use Rattle.std.specs.Prelude.{◌≡◌, ◌^◌, ◌≤◌, length, IfOk};
ghost use Rattle.vm_field.specs.Limits.{most_outputs};
ghost use Rattle.rpo_hash.specs.Constants.{constants_of};
ghost use Rattle.vm_table.specs.Layout.{IsTable};
ghost use Rattle.air_kit.specs.Requests.{Fits};
ghost use Rattle.air_kit.specs.Traces.{HasCounts};
ghost use Rattle.block_tree.specs.Trees.{tree_digest};
ghost use Rattle.block_tree.specs.TreeView.{tree_of};
ghost use Rattle.vm_state.specs.Views.{core_of};
ghost use Rattle.machine_cycles.specs.Events.{visible_of};
ghost use Rattle.processor.specs.Executed.{WasExecuted};
ghost use Rattle.complete_rows.specs.Filling.{rows_of_run};
ghost use Rattle.complete_rows.specs.Numbers.{HasSmallNumbers};
ghost use Rattle.complete_rows.specs.RunRequests.{requests_of};
ghost use Rattle.fill_chips.specs.Beside.{beside};
ghost use Rattle.fill_files.specs.Inside.{HasFew, IsShort, TracesRun};

use air_kit::{Requests, Trace};
use block_tree::Program;
use fill_chips::{Chips, fill_chips};
use fill_main::fill_main;
use perm_memo::Permutations;
use processor::Run;
use rpo_hash::{Params, known_constants};
use std::alloc::Global;
use std::thread::Threads;
use vm_field::{Memory, Word};
use vm_io::Gate;
use vm_state::State;
use vm_table::Table;

/// What a run leaves when its events are given up.
#[derive(Drop)]
pub struct RunEnd {
    /// The state at the end.
    pub state: State,
    /// The digest of the program's tree.
    pub digest: Word,
}

// The main table of a run, what it asks, and what is left of the run.
#[derive(Drop)]
struct Filled {
    main: Table<65>,
    requests: Requests,
    permutations: Permutations,
    end: RunEnd,
}

// The trace of a run, and what it leaves.
#[tactic(auto, using(crate::proofs::RunLemmas::short_tables))]
pub(crate) fn tables_of_run<R: Threads + Sync, G: Gate>(
    rt: &R,
    alloc: Global,
    params: &Params,
    program: &Program,
    run: Run,
    pieces: usize,
    gate: &G,
) -> Result<(Trace, RunEnd), Memory>
    requires executed { WasExecuted params.now program.now run }
    requires pieces { (1 ≤ pieces) × (pieces ≤ 64) }
    ensures trace { IfOk result (λ r. TracesRun params.now program.now run r.0) }
    ensures counts { IfOk result (λ r. HasCounts r.0) }
    ensures short { IfOk result (λ r. IsShort r.0) }
    ensures state { IfOk result (λ r. r.1.state ≡ run.state) }
    ensures digest { IfOk result (λ r. r.1.digest ≡ tree_digest (constants_of params.now) (tree_of program.now.tree)) }
    ensures depth { IfOk result (λ r. length r.1.state.stack ≤ most_outputs) }
{
    known_run(params, program, &run);
    let filled = fill_run(alloc, run)?;
    let chips = fill_chips(
        rt,
        alloc,
        &filled.permutations,
        &program.kernel,
        &filled.requests,
        pieces,
        gate,
    )?;
    Ok((trace_with(filled.main, chips), filled.end))
}

// Fills the main table. The events of the run are given up.
fn fill_run(alloc: Global, run: Run) -> Result<Filled, Memory>
    requires { HasSmallNumbers (visible_of (core_of run.state)) run.events }
    ensures rows { IfOk result (λ f. f.main ≡ rows_of_run (visible_of (core_of run.state)) run.events) }
    ensures requests { IfOk result (λ f. f.requests ≡ requests_of run.permutations (visible_of (core_of run.state)) run.events) }
    ensures permutations { IfOk result (λ f. f.permutations ≡ run.permutations) }
    ensures state { IfOk result (λ f. f.end.state ≡ run.state) }
    ensures digest { IfOk result (λ f. f.end.digest ≡ run.digest) }
{
    let Run {
        state,
        tape: _,
        events,
        digest,
        permutations,
    } = run;
    let mut permutations = permutations;
    let (main, requests) = fill_main(alloc, &mut permutations, &state, &events)?;
    Ok(Filled {
        main,
        requests,
        permutations,
        end: RunEnd { state, digest },
    })
}

// What is known of a run that was executed. A run does nothing.
fn known_run(params: &Params, _program: &Program, _run: &Run)
    requires { WasExecuted params.now _program.now _run.now }
    ensures fits { Fits (constants_of params.now) _program.now.kernel
        (requests_of (constants_of params.now) (visible_of (core_of _run.now.state)) _run.now.events) }
    ensures numbers { HasSmallNumbers (visible_of (core_of _run.now.state)) _run.now.events }
    ensures asked { HasFew (requests_of (constants_of params.now) (visible_of (core_of _run.now.state)) _run.now.events) }
    ensures has { 1 ≤ length (rows_of_run (visible_of (core_of _run.now.state)) _run.now.events) }
    ensures few { length (rows_of_run (visible_of (core_of _run.now.state)) _run.now.events) ≤ 2 ^ 19 }
    ensures depth { length _run.now.state.stack ≤ most_outputs }
    ensures digest { _run.now.digest ≡ tree_digest (constants_of params.now) (tree_of _program.now.tree) }
    ensures permutations { _run.now.permutations ≡ constants_of params.now }
{
    known_constants(params);
}

// A main table and the small ones beside it.
fn trace_with(main: Table<65>, chips: Chips) -> Trace
    ensures is { result ≡ beside main chips }
    ensures left { IsTable 1 result.left }
{
    let _ = chips.left.rows();
    Trace {
        main,
        range: chips.range,
        hasher: chips.hasher,
        bitwise: chips.bitwise,
        memory: chips.memory,
        kernel: chips.kernel,
        left: chips.left,
    }
}
