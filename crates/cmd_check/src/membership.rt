// `member`: a trace is held against the program that walks a Merkle path.
ghost use Rattle.std.specs.Prelude.{◌≡◌, ◌+◌, ◌<◌, ◌≤◌, drop, length, reverse, slice_index, take, IfOk, Some};
ghost use Rattle.vm_field.specs.Limits.{most_name_bytes};
ghost use Rattle.vm_field.specs.Machine.{filled_up};
ghost use Rattle.statement.specs.Statements.{stated_of};
ghost use Rattle.cmd_kit.specs.MemberSteps.{member_line, member_steps};
ghost use Rattle.cmd_kit.specs.Outcomes.{EndsIn, either};

use crate::checking::CheckNames;
use crate::sourcing::judge_for;
use air_kit::Public;
use checker::Seed;
use cmd_kit::{Outcome, append_word, load_params, load_statement, load_trace};
use merkle_lib::program;
use std::alloc::Global;
use std::thread::Threads;
use vm_field::{Bytes, Felt, Memory, Word};
use vm_io::{Gate, Shelf};
use vm_state::Statement;

/// `member`: reads the parameters, the table file and the statement, judges the trace, and holds it
/// against the program that walks a path of `depth` steps, from 1 to 64.
pub fn check_member_files<R: Threads + Sync, F: Shelf, G: Gate>(
    rt: &R,
    alloc: Global,
    seed: Seed,
    shelf: &mut F,
    gate: &G,
    params: &str,
    names: CheckNames<'_>,
    depth: u32,
) -> Outcome
    requires params { length params.now ≤ most_name_bytes }
    requires table { length names.table.now ≤ most_name_bytes }
    requires statement { length names.statement.now ≤ most_name_bytes }
    requires evidence { length names.evidence.now ≤ most_name_bytes }
    requires pieces { (1 ≤ names.pieces) × (names.pieces ≤ 64) }
    requires depth { (1 ≤ depth) × (depth ≤ 64) }
    ensures { EndsIn (Some (member_steps params.now names.entry.table.now names.entry.statement.now names.entry.evidence.now depth)) result
        (F.state shelf.old) (F.state shelf.new) }
{
    match read_and_walk(rt, alloc, seed, shelf, gate, params, names, depth) {
        Ok(end) | Err(end) => end,
    }
}

// Reads the files, one after another, and judges the trace.
fn read_and_walk<R: Threads + Sync, F: Shelf, G: Gate>(
    rt: &R,
    alloc: Global,
    seed: Seed,
    shelf: &mut F,
    gate: &G,
    params: &str,
    names: CheckNames<'_>,
    depth: u32,
) -> Result<Outcome, Outcome>
    requires params { length params.now ≤ most_name_bytes }
    requires table { length names.table.now ≤ most_name_bytes }
    requires statement { length names.statement.now ≤ most_name_bytes }
    requires evidence { length names.evidence.now ≤ most_name_bytes }
    requires pieces { (1 ≤ names.pieces) × (names.pieces ≤ 64) }
    requires depth { (1 ≤ depth) × (depth ≤ 64) }
    ensures { EndsIn (Some (member_steps params.now names.entry.table.now names.entry.statement.now names.entry.evidence.now depth))
        (either result) (F.state shelf.old) (F.state shelf.new) }
{
    let params = load_params(alloc, shelf, params)?;
    let trace = load_trace(alloc, shelf, names.table)?;
    let statement = load_statement(alloc, shelf, names.statement)?;
    let (Ok(program), Ok(line)) = (program(alloc, depth), member_text(alloc, &statement)) else {
        return Err(Outcome::Memory);
    };
    let public = Public { params, statement };
    Ok(judge_for(
        rt,
        alloc,
        seed,
        shelf,
        gate,
        public,
        trace,
        &program,
        line.as_slice(),
        names,
    ))
}

// `member`, the leaf and the root
fn member_text(alloc: Global, statement: &Statement) -> Result<Bytes, Memory>
    ensures { IfOk result (λ line. line ≡ member_line (stated_of statement.now)) }
{
    let cells = statement.inputs.as_slice();
    let mut line = Bytes::copied(alloc, b"member ")?;
    append_word(alloc, &mut line, &word_on(cells, 0))?;
    line.append(b" ")?;
    append_word(alloc, &mut line, &word_on(cells, 4))?;
    line.append(b"\n")?;
    Ok(line)
}

// The word behind so many cells of the stack that a run begins with. Its last element lies on top.
fn word_on(cells: &[Felt], place: usize) -> Word
    requires { place ≤ 12 }
    ensures { result ≡ reverse (take 4 (drop place (filled_up cells.now))) }
{
    Word([
        cell_at(cells, place + 3),
        cell_at(cells, place + 2),
        cell_at(cells, place + 1),
        cell_at(cells, place),
    ])
}

// The cell at a place of that stack: zeros stand below the inputs.
fn cell_at(cells: &[Felt], place: usize) -> Felt
    requires { place < 16 }
    ensures { result ≡ slice_index (filled_up cells.now) place }
{
    match cells.get(place) {
        Some(cell) => *cell,
        None => Felt::ZERO,
    }
}
