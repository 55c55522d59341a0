// `make`: the parameters are read, and then the run of a workload is told, and its files are written.
ghost use Rattle.std.specs.Prelude.{◌≤◌, length, Some};
ghost use Rattle.vm_field.specs.Limits.{most_name_bytes};
ghost use Rattle.workloads.specs.Workloads.{most_turns};
ghost use Rattle.cmd_kit.specs.MakeSteps.{make_steps};
ghost use Rattle.cmd_kit.specs.Outcomes.{EndsIn, either};
ghost use Rattle.cmd_make.specs.Naming.{AreNamed, names_from};

use crate::made::made_for;
use crate::names::MadeNames;
use crate::saving::save_made;
use checker::Seed;
use cmd_kit::{Outcome, load_params};
use std::alloc::Global;
use std::thread::Threads;
use vm_io::{Gate, Shelf};

/// `make`: reads the parameters, runs the source of so many turns on its inputs, checks the trace of the run in memory, and
/// writes the source and then the inputs.
pub fn make_files<R: Threads + Sync, F: Shelf, G: Gate>(
    rt: &R,
    alloc: Global,
    seed: Seed,
    shelf: &mut F,
    gate: &G,
    params: &str,
    turns: u32,
    names: MadeNames<'_>,
) -> Outcome
    requires params { length params.now ≤ most_name_bytes }
    requires some { 1 ≤ turns }
    requires few { turns ≤ most_turns }
    requires named { AreNamed names }
    ensures { EndsIn (Some (make_steps params.now turns (names_from names.entry))) result (F.state shelf.old) (F.state shelf.new) }
{
    match read_and_make(rt, alloc, seed, shelf, gate, params, turns, names) {
        Ok(end) | Err(end) => end,
    }
}

// Reads the parameters, and makes what is written before anything is.
fn read_and_make<R: Threads + Sync, F: Shelf, G: Gate>(
    rt: &R,
    alloc: Global,
    seed: Seed,
    shelf: &mut F,
    gate: &G,
    params: &str,
    turns: u32,
    names: MadeNames<'_>,
) -> Result<Outcome, Outcome>
    requires params { length params.now ≤ most_name_bytes }
    requires some { 1 ≤ turns }
    requires few { turns ≤ most_turns }
    requires named { AreNamed names }
    ensures { EndsIn (Some (make_steps params.now turns (names_from names.entry))) (either result) (F.state shelf.old) (F.state shelf.new) }
{
    let constants = load_params(alloc, shelf, params)?;
    let made = made_for(rt, alloc, seed, gate, constants, turns, names.source)?;
    Ok(save_made(alloc, shelf, made, names))
}
