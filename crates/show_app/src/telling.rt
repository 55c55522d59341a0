//! The commands `show` and `evidence`.
ghost use Rattle.std.specs.Prelude.{◌≡◌, ◌≤◌, length, IfOk, Some};
ghost use Rattle.vm_field.specs.Limits.{most_name_bytes};
ghost use Rattle.cmd_kit.specs.Outcomes.{ComesTo, EndsIn, SaysStatus};
ghost use Rattle.show_text.specs.EvidenceText.{told_evidence as evidence_told};
ghost use Rattle.show_text.specs.RowText.{rows_text};
ghost use Rattle.show_text.specs.RunText.{trace_text};
ghost use Rattle.show_app.specs.Showing.{last_row};
ghost use Rattle.show_app.specs.ShowSteps.{evidence_end, evidence_steps, rows_steps, run_steps};

use air_kit::{TableName, Trace};
use cmd_kit::{Outcome, Status, answered, load, load_trace, malformed};
use show_text::{EvidenceError, append_rows, run_text, told_evidence};
use std::alloc::Global;
use vm_field::{Bytes, Memory};
use vm_io::Shelf;

/// The longest evidence that is read, in bytes.
const MOST_EVIDENCE_BYTES: u64 = 1_073_741_824;

/// `show` of a table file: its tables, and the operations of its run.
#[tactic(auto, using(cmd_kit::proofs::ServingLemmas::work_ends, cmd_kit::proofs::ServingLemmas::says_comes))]
pub fn tell_run<F: Shelf>(alloc: Global, shelf: &mut F, table: &str) -> Outcome
    requires { length table.now ≤ most_name_bytes }
    ensures { EndsIn (Some (run_steps table.now)) result (F.state shelf.old) (F.state shelf.new) }
{
    match load_trace(alloc, shelf, table) {
        Ok(trace) => told_run(alloc, &trace),
        Err(end) => end,
    }
}

#[tactic(auto, using(cmd_kit::proofs::OutcomeLemmas::says_line))]
fn told_run(alloc: Global, trace: &Trace) -> Outcome
    ensures { SaysStatus result Status.Ok (trace_text trace.now) }
{
    answered(Status::Ok, run_text(alloc, trace))
}

/// `show` of a table: its rows from one to another, as far as there are any.
#[tactic(auto, using(cmd_kit::proofs::ServingLemmas::work_ends, cmd_kit::proofs::ServingLemmas::says_comes))]
pub fn tell_rows<F: Shelf>(
    alloc: Global,
    shelf: &mut F,
    table: &str,
    name: TableName,
    first: usize,
    last: usize,
) -> Outcome
    requires table { length table.now ≤ most_name_bytes }
    requires last { last ≤ last_row }
    ensures { EndsIn (Some (rows_steps table.now name first last)) result (F.state shelf.old) (F.state shelf.new) }
{
    match load_trace(alloc, shelf, table) {
        Ok(trace) => told_rows(alloc, &trace, name, first, last),
        Err(end) => end,
    }
}

#[tactic(auto, using(cmd_kit::proofs::OutcomeLemmas::says_line))]
fn told_rows(alloc: Global, trace: &Trace, name: TableName, first: usize, last: usize) -> Outcome
    requires { last ≤ last_row }
    ensures { SaysStatus result Status.Ok (rows_text trace.now name first last) }
{
    answered(Status::Ok, rows_lines(alloc, trace, name, first, last))
}

fn rows_lines(
    alloc: Global,
    trace: &Trace,
    name: TableName,
    first: usize,
    last: usize,
) -> Result<Bytes, Memory>
    requires { last ≤ last_row }
    ensures { IfOk result (λ text. text ≡ rows_text trace.now name first last) }
{
    let mut text = Bytes::new(alloc);
    append_rows(&mut text, trace, name, first, last)?;
    Ok(text)
}

/// `evidence`: its lines, with the operations of batches.
#[tactic(auto, using(cmd_kit::proofs::ServingLemmas::work_ends))]
pub fn tell_evidence<F: Shelf>(alloc: Global, shelf: &mut F, name: &str) -> Outcome
    requires { length name.now ≤ most_name_bytes }
    ensures { EndsIn (Some (evidence_steps name.now)) result (F.state shelf.old) (F.state shelf.new) }
{
    match load(alloc, shelf, name, MOST_EVIDENCE_BYTES) {
        Ok(bytes) => tell_bytes(alloc, name, bytes.as_slice()),
        Err(end) => end,
    }
}

#[tactic(auto, using(cmd_kit::proofs::OutcomeLemmas::says_line, cmd_kit::proofs::ServingLemmas::says_comes))]
fn tell_bytes(alloc: Global, name: &str, bytes: &[u8]) -> Outcome
    requires { length bytes.now ≤ 1073741824 }
    ensures { ComesTo (evidence_end name.now (evidence_told bytes.now)) result }
{
    match told_evidence(alloc, bytes) {
        Ok(text) => answered(Status::Ok, Ok(text)),
        Err(EvidenceError::Bad { line }) => malformed(alloc, name, line, "Line"),
        Err(EvidenceError::Memory) => Outcome::Memory,
    }
}
