// `check` of a table file: evidence is written where it is accepted, and else its refusal is told.
ghost use Rattle.std.specs.Prelude.{◌≡◌, ◌≤◌, ◌∷◌, ◌++◌, length, codes, decimal, IfOk, Some};
ghost use Rattle.vm_field.specs.Limits.{most_name_bytes};
ghost use Rattle.rpo_hash.specs.Constants.{constants_of};
ghost use Rattle.statement.specs.Statements.{stated_of};
ghost use Rattle.air_kit.specs.Traces.{HasCounts};
ghost use Rattle.cmd_kit.specs.CheckEnds.{accepted_line};
ghost use Rattle.cmd_kit.specs.CheckSteps.{check_steps, found_steps, judging_steps};
ghost use Rattle.checker.specs.declared.refusal.Refused.TheVariants as why;
ghost use Rattle.cmd_kit.specs.RefusalLines.{refused_line};
ghost use Rattle.cmd_kit.specs.declared.outcome.Outcome.TheVariants as outcome;
ghost use Rattle.cmd_kit.specs.Outcomes.{EndsIn, SaysStatus, either};
ghost use Rattle.cmd_kit.specs.Steps.{accepted};

use air_kit::{Public, Trace};
use block_tree::Evidence;
use checker::{Refused, Seed, Valid, check};
use cmd_kit::{
    Outcome, Status, answered, load_params, load_statement, load_trace, refused_line, save,
};
use decimal_text::append_number;
use sound_evidence::extract;
use statement::write_evidence;
use std::alloc::Global;
use std::thread::Threads;
use vm_field::{Bytes, Memory};
use vm_io::{Gate, Shelf};

/// The files of `check` behind the parameters, and in how many pieces the trace is checked.
#[derive(Clone, Copy)]
pub struct CheckNames<'a> {
    pub table: &'a str,
    pub statement: &'a str,
    /// The file that is written.
    pub evidence: &'a str,
    /// From 1 to 64. No answer depends on it.
    pub pieces: usize,
}

/// `check`: reads the parameters, the table file and the statement, and judges the trace.
pub fn check_files<R: Threads + Sync, F: Shelf, G: Gate>(
    rt: &R,
    alloc: Global,
    seed: Seed,
    shelf: &mut F,
    gate: &G,
    params: &str,
    names: CheckNames<'_>,
) -> Outcome
    requires params { length params.now ≤ most_name_bytes }
    requires table { length names.table.now ≤ most_name_bytes }
    requires statement { length names.statement.now ≤ most_name_bytes }
    requires evidence { length names.evidence.now ≤ most_name_bytes }
    requires pieces { (1 ≤ names.pieces) × (names.pieces ≤ 64) }
    ensures { EndsIn (Some (check_steps params.now names.entry.table.now names.entry.statement.now names.entry.evidence.now)) result
        (F.state shelf.old) (F.state shelf.new) }
{
    match read_and_judge(rt, alloc, seed, shelf, gate, params, names) {
        Ok(end) | Err(end) => end,
    }
}

// Reads the files, one after another, and judges the trace.
fn read_and_judge<R: Threads + Sync, F: Shelf, G: Gate>(
    rt: &R,
    alloc: Global,
    seed: Seed,
    shelf: &mut F,
    gate: &G,
    params: &str,
    names: CheckNames<'_>,
) -> Result<Outcome, Outcome>
    requires params { length params.now ≤ most_name_bytes }
    requires table { length names.table.now ≤ most_name_bytes }
    requires statement { length names.statement.now ≤ most_name_bytes }
    requires evidence { length names.evidence.now ≤ most_name_bytes }
    requires pieces { (1 ≤ names.pieces) × (names.pieces ≤ 64) }
    ensures { EndsIn (Some (check_steps params.now names.entry.table.now names.entry.statement.now names.entry.evidence.now)) (either result)
        (F.state shelf.old) (F.state shelf.new) }
{
    let params = load_params(alloc, shelf, params)?;
    let trace = load_trace(alloc, shelf, names.table)?;
    let statement = load_statement(alloc, shelf, names.statement)?;
    let public = Public { params, statement };
    Ok(judge(rt, alloc, seed, shelf, gate, public, trace, names))
}

// Checks the trace: its evidence is written and told, or its refusal is told.
fn judge<R: Threads + Sync, F: Shelf, G: Gate>(
    rt: &R,
    alloc: Global,
    seed: Seed,
    shelf: &mut F,
    gate: &G,
    public: Public,
    trace: Trace,
    names: CheckNames<'_>,
) -> Outcome
    requires counts { HasCounts trace }
    requires evidence { length names.evidence.now ≤ most_name_bytes }
    requires pieces { (1 ≤ names.pieces) × (names.pieces ≤ 64) }
    ensures { EndsIn (Some (judging_steps names.entry.evidence.now (constants_of public.params) trace (stated_of public.statement))) result
        (F.state shelf.old) (F.state shelf.new) }
{
    match check(rt, alloc, seed, trace, public, names.pieces, gate) {
        Ok(valid) => accept(alloc, shelf, &valid, names.evidence),
        Err(refused) => refuse(alloc, &refused),
    }
}

// Tells why a trace is refused.
#[tactic(auto, using(cmd_kit::proofs::OutcomeLemmas::says_line))]
pub(crate) fn refuse(alloc: Global, refused: &Refused) -> Outcome
    ensures says { SaysStatus result Status.Refused (refused_line refused.now) }
    ensures memory { refused.now ≡ why.Memory → result ≡ outcome.Memory }
{
    match refused {
        Refused::Memory => Outcome::Memory,
        Refused::Fault(_) | Refused::Bus { .. } => {
            answered(Status::Refused, refused_line(alloc, refused))
        }
    }
}

// Writes the evidence of a trace that is accepted, and tells which it is.
#[tactic(auto, using(crate::proofs::CheckLemmas::evidence_is_right, cmd_kit::proofs::ServingLemmas::same_again))]
fn accept<F: Shelf>(alloc: Global, shelf: &mut F, valid: &Valid, name: &str) -> Outcome
    requires name { length name.now ≤ most_name_bytes }
    ensures { EndsIn (Some (found_steps name.now (constants_of valid.now.public.params) (stated_of valid.now.public.statement)
        valid.now.trace accepted)) result
        (F.state shelf.old) (F.state shelf.new) }
{
    let Ok(evidence) = extract(alloc, valid) else {
        return Outcome::Memory;
    };
    let Ok(text) = write_evidence(alloc, &evidence) else {
        return Outcome::Memory;
    };
    match save(alloc, shelf, name, text.as_slice()) {
        Ok(()) => answered(Status::Ok, accepted_text(alloc, &evidence)),
        Err(end) => end,
    }
}

// `accepted run`, or `accepted pair A B`
fn accepted_text(alloc: Global, evidence: &Evidence) -> Result<Bytes, Memory>
    ensures { IfOk result (λ line. line ≡ accepted_line evidence.now) }
{
    match evidence {
        Evidence::Run { .. } => Bytes::copied(alloc, b"accepted run\n"),
        Evidence::Pair { first, second } => pair_text(alloc, *first, *second),
    }
}

fn pair_text(alloc: Global, first: u32, second: u32) -> Result<Bytes, Memory>
    ensures { IfOk result (λ line. line ≡ codes "accepted pair " ++ decimal first ++ 32 ∷ decimal second ++ codes "\n") }
{
    let mut line = Bytes::copied(alloc, b"accepted pair ")?;
    append_number(&mut line, u64::from(first))?;
    line.append(b" ")?;
    append_number(&mut line, u64::from(second))?;
    line.append(b"\n")?;
    Ok(line)
}
