// `check` against a source: the source is assembled, and where the trace is accepted it is held against the program. What follows
// a program is said for any tree.
ghost use Rattle.std.specs.Prelude.{◌≡◌, ◌≤◌, length, option_map, IfErr, IfOk, IfSome, Ok, Some};
ghost use Rattle.vm_field.specs.Limits.{most_name_bytes, most_source_bytes};
ghost use Rattle.rpo_hash.specs.Constants.{constants_of};
ghost use Rattle.statement.specs.Statements.{stated_of};
ghost use Rattle.air_kit.specs.Traces.{HasCounts};
ghost use Rattle.air_kit.specs.declared.trace.Public.{Public};
ghost use Rattle.air_kit.specs.declared.trace.Trace.{Trace};
ghost use Rattle.block_tree.specs.Trees.{Tree, tree_digest};
ghost use Rattle.block_tree.specs.TreeView.{tree_of};
ghost use Rattle.source_check.specs.SourceEvidences.{IsSourceEvidence};
ghost use Rattle.cmd_check.specs.Sourcing.{EndsApart, HasFewBlocks, SaysStop, Unbuilt};
ghost use Rattle.cmd_kit.specs.CheckSourceEnds.{accepted_source_line, other_program_line};
ghost use Rattle.cmd_kit.specs.CheckSourceSteps.{check_source_steps, held_steps, sourced_steps};
ghost use Rattle.cmd_kit.specs.Outcomes.{EndsIn, either};
ghost use Rattle.cmd_kit.specs.SourceEnds.{AssemblesFiles};
ghost use Rattle.cmd_kit.specs.Sources.{file_of};
ghost use Rattle.cmd_kit.specs.Steps.{accepted, asking, checked};

use crate::checking::{CheckNames, refuse};
use air_kit::{Public, Trace};
use block_tree::Program;
use checker::{Seed, Valid, check};
use cmd_kit::{
    Outcome, SourceFile, Status, answered, append_word, assemble_sources, load_kernel, load_params,
    load_source, load_statement, load_trace, name_of_place, refused_source, save,
};
use masm_link::{AsmError, assembled_trees};
use rpo_hash::Params;
use sound_evidence::extract_addr;
use source_check::{
    SourceEvidence, SourceStop, append_clash_of_file, append_clash_of_node, check_source,
    write_source_evidence,
};
use std::alloc::Global;
use std::thread::Threads;
use vm_field::{Bytes, Memory, Word};
use vm_io::{Gate, Shelf};

/// `check --source`: reads the parameters, the table file and the statement, then the source and its
/// kernel, where one is named; assembles the source, judges the trace, and holds it against the program.
pub fn check_source_files<R: Threads + Sync, F: Shelf, G: Gate>(
    rt: &R,
    alloc: Global,
    seed: Seed,
    shelf: &mut F,
    gate: &G,
    params: &str,
    names: CheckNames<'_>,
    source: &str,
    kernel: Option<&str>,
) -> Outcome
    requires params { length params.now ≤ most_name_bytes }
    requires table { length names.table.now ≤ most_name_bytes }
    requires statement { length names.statement.now ≤ most_name_bytes }
    requires evidence { length names.evidence.now ≤ most_name_bytes }
    requires pieces { (1 ≤ names.pieces) × (names.pieces ≤ 64) }
    requires source { length source.now ≤ most_name_bytes }
    requires kernel { IfSome kernel (λ k. length k.now ≤ most_name_bytes) }
    ensures { EndsIn (Some (check_source_steps params.now names.entry.table.now names.entry.statement.now names.entry.evidence.now source.now
        (option_map (λ k. k.now) kernel.entry))) result (F.state shelf.old) (F.state shelf.new) }
{
    match read_and_hold(rt, alloc, seed, shelf, gate, params, names, source, kernel) {
        Ok(end) | Err(end) => end,
    }
}

// Reads the files, one after another, assembles the source, and judges the trace.
fn read_and_hold<R: Threads + Sync, F: Shelf, G: Gate>(
    rt: &R,
    alloc: Global,
    seed: Seed,
    shelf: &mut F,
    gate: &G,
    params: &str,
    names: CheckNames<'_>,
    source: &str,
    kernel: Option<&str>,
) -> Result<Outcome, Outcome>
    requires params { length params.now ≤ most_name_bytes }
    requires table { length names.table.now ≤ most_name_bytes }
    requires statement { length names.statement.now ≤ most_name_bytes }
    requires evidence { length names.evidence.now ≤ most_name_bytes }
    requires pieces { (1 ≤ names.pieces) × (names.pieces ≤ 64) }
    requires source { length source.now ≤ most_name_bytes }
    requires kernel { IfSome kernel (λ k. length k.now ≤ most_name_bytes) }
    ensures { EndsIn (Some (check_source_steps params.now names.entry.table.now names.entry.statement.now names.entry.evidence.now source.now
        (option_map (λ k. k.now) kernel.entry))) (either result) (F.state shelf.old) (F.state shelf.new) }
{
    let params = load_params(alloc, shelf, params)?;
    let trace = load_trace(alloc, shelf, names.table)?;
    let statement = load_statement(alloc, shelf, names.statement)?;
    let source = load_source(alloc, shelf, source)?;
    let kernel = load_kernel(alloc, shelf, kernel)?;
    let program = program_of(alloc, &params, &source, kernel.as_ref())?;
    let public = Public { params, statement };
    Ok(judge_for(
        rt,
        alloc,
        seed,
        shelf,
        gate,
        public,
        trace,
        &program,
        b"accepted ran\n",
        names,
    ))
}

// The program of a source. An `Err` is how the command ends.
fn program_of(
    alloc: Global,
    constants: &Params,
    source: &SourceFile<'_>,
    kernel: Option<&SourceFile<'_>>,
) -> Result<Program, Outcome>
    requires source { length source.now.text ≤ most_source_bytes }
    requires kernel { IfSome kernel (λ k. length k.now.text ≤ most_source_bytes) }
    ensures built { IfOk result (λ program. AssemblesFiles (constants_of constants.now) (file_of source.now)
        (option_map (λ k. file_of k.now) kernel.entry) (Ok program)) }
    ensures few { IfOk result (λ program. HasFewBlocks (constants_of constants.now) (tree_of program.tree)) }
    ensures unbuilt { IfErr result (Unbuilt (constants_of constants.now) (file_of source.now) (option_map (λ k. file_of k.now) kernel.entry)) }
{
    assembled_trees();
    match assemble_sources(alloc, constants, source, kernel) {
        Ok(program) => Ok(program),
        Err(
            AsmError::Bad {
                in_kernel,
                line,
                column,
                cause,
            },
        ) => {
            let name = name_of_place(in_kernel, source, kernel);
            Err(refused_source(alloc, name, line, column, cause))
        }
        Err(AsmError::Memory) => Err(Outcome::Memory),
    }
}

/// Checks the trace: where it is accepted it is held against the program, and else its refusal is told. `ran` is the line that
/// tells of a run.
pub(crate) fn judge_for<R: Threads + Sync, F: Shelf, G: Gate>(
    rt: &R,
    alloc: Global,
    seed: Seed,
    shelf: &mut F,
    gate: &G,
    public: Public,
    trace: Trace,
    program: &Program,
    ran: &[u8],
    names: CheckNames<'_>,
) -> Outcome
    requires counts { HasCounts trace }
    requires evidence { length names.evidence.now ≤ most_name_bytes }
    requires pieces { (1 ≤ names.pieces) × (names.pieces ≤ 64) }
    requires few { HasFewBlocks (constants_of public.params) (tree_of program.now.tree) }
    ensures { EndsIn (Some (asking (checked (constants_of public.params) (stated_of public.statement) trace)
        (held_steps names.entry.evidence.now (constants_of public.params) (stated_of public.statement) trace (tree_of program.now.tree) ran.now)))
        result (F.state shelf.old) (F.state shelf.new) }
{
    match check(rt, alloc, seed, trace, public, names.pieces, gate) {
        Ok(valid) => accept_for(alloc, shelf, &valid, program, ran, names.evidence),
        Err(refused) => refuse(alloc, &refused),
    }
}

// Holds a trace that is accepted against the program: evidence is written and told, or that the statement is of another program.
fn accept_for<F: Shelf>(
    alloc: Global,
    shelf: &mut F,
    valid: &Valid,
    program: &Program,
    ran: &[u8],
    name: &str,
) -> Outcome
    requires name { length name.now ≤ most_name_bytes }
    requires few { HasFewBlocks (constants_of valid.now.public.params) (tree_of program.now.tree) }
    ensures { EndsIn (Some (held_steps name.now (constants_of valid.now.public.params) (stated_of valid.now.public.statement) valid.now.trace
        (tree_of program.now.tree) ran.now accepted)) result (F.state shelf.old) (F.state shelf.new) }
{
    match sourced(alloc, valid, program) {
        Ok(evidence) => save_evidence(alloc, shelf, &evidence, ran, name),
        Err(apart) => apart,
    }
}

// Evidence of a trace for a program. An `Err` is how the command ends: the statement is of another program, or memory was refused.
fn sourced(alloc: Global, valid: &Valid, program: &Program) -> Result<SourceEvidence, Outcome>
    requires few { HasFewBlocks (constants_of valid.now.public.params) (tree_of program.now.tree) }
    ensures digest { IfOk result (λ _. tree_digest (constants_of valid.now.public.params) (tree_of program.now.tree)
        ≡ valid.now.public.statement.digest) }
    ensures evidence { IfOk result (λ e. IsSourceEvidence valid.now.public valid.now.trace (tree_of program.now.tree) e) }
    ensures apart { IfErr result (EndsApart valid.now.public (tree_of program.now.tree)) }
{
    let Ok(evidence) = extract_addr(alloc, valid) else {
        return Err(Outcome::Memory);
    };
    let public = valid.public();
    match check_source(
        alloc,
        &public.params,
        valid.trace(),
        &public.statement,
        evidence,
        program,
    ) {
        Ok(evidence) => Ok(evidence),
        Err(stop) => Err(tell_stop(alloc, &stop)),
    }
}

// Writes evidence for a program, and tells which it is.
fn save_evidence<F: Shelf>(
    alloc: Global,
    shelf: &mut F,
    evidence: &SourceEvidence,
    ran: &[u8],
    name: &str,
) -> Outcome
    requires name { length name.now ≤ most_name_bytes }
    ensures { (public : Public) (trace : Trace) (tree : Tree) → IsSourceEvidence public trace tree evidence.now
        → EndsIn (Some (sourced_steps name.now (constants_of public.params) (stated_of public.statement) trace tree ran.now)) result
        (F.state shelf.old) (F.state shelf.new) }
{
    let Ok(text) = write_source_evidence(alloc, evidence) else {
        return Outcome::Memory;
    };
    match save(alloc, shelf, name, text.as_slice()) {
        Ok(()) => answered(Status::Ok, accepted_text(alloc, evidence, ran)),
        Err(end) => end,
    }
}

// The line of a run, or `accepted` and the line of the clash
fn accepted_text(alloc: Global, evidence: &SourceEvidence, ran: &[u8]) -> Result<Bytes, Memory>
    ensures { IfOk result (λ line. line ≡ accepted_source_line ran.now evidence.now) }
{
    match evidence {
        SourceEvidence::Ran { .. } => Bytes::copied(alloc, ran),
        SourceEvidence::ClashFile { first, second } => {
            let mut line = Bytes::copied(alloc, b"accepted ")?;
            append_clash_of_file(&mut line, *first, *second)?;
            Ok(line)
        }
        SourceEvidence::ClashNode { address, node } => {
            let mut line = Bytes::copied(alloc, b"accepted ")?;
            append_clash_of_node(&mut line, *address, *node)?;
            Ok(line)
        }
    }
}

// Tells why there is no evidence: the digest of the statement, and that of the program.
#[tactic(auto, using(cmd_kit::proofs::OutcomeLemmas::says_line))]
fn tell_stop(alloc: Global, stop: &SourceStop) -> Outcome
    ensures { SaysStop stop.now result }
{
    match stop {
        SourceStop::OtherDigest { file, source } => {
            answered(Status::OtherProgram, other_text(alloc, file, source))
        }
        SourceStop::Memory => Outcome::Memory,
    }
}

fn other_text(alloc: Global, stated: &Word, own: &Word) -> Result<Bytes, Memory>
    ensures { IfOk result (λ line. line ≡ other_program_line stated.now own.now) }
{
    let mut line = Bytes::copied(alloc, b"other program ")?;
    append_word(alloc, &mut line, stated)?;
    line.append(b" ")?;
    append_word(alloc, &mut line, own)?;
    line.append(b"\n")?;
    Ok(line)
}
