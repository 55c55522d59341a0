// One link of a chain: its files are read, its statement is held against what the link before left, and its trace is checked.
ghost use Rattle.std.specs.Prelude.{◌≡◌, ◌≤◌, ◌<◌, ◌+◌, ◌++◌, length, option_map, IfErr, IfOk, OnOk};
ghost use Rattle.vm_field.specs.Limits.{most_name_bytes};
ghost use Rattle.air_kit.specs.Traces.{HasCounts};
ghost use Rattle.rpo_hash.specs.Constants.{constants_of};
ghost use Rattle.statement.specs.Statements.{stated_of};
ghost use Rattle.checker.specs.declared.refusal.Refused.TheVariants as why;
ghost use Rattle.cmd_check.specs.Judging.{EndsHere, GoesOn, HasEvidence, LinkGoesOn, TextGrew, judged_of, link_from};
ghost use Rattle.cmd_kit.specs.ChainSteps.{follows_on, link_steps};
ghost use Rattle.cmd_kit.specs.Links.{line_of_link, link_line};
ghost use Rattle.cmd_kit.specs.Outcomes.{EndsThere, SaysStatus};
ghost use Rattle.cmd_kit.specs.RefusalLines.{refused_line};
ghost use Rattle.cmd_kit.specs.declared.outcome.Outcome.TheVariants as outcome;

use air_kit::{Public, Trace};
use checker::{Refused, Seed, Valid, check};
use cmd_kit::{
    Outcome, Status, answered, broken_link, load_statement, load_trace, refused_line, text_of_link,
};
use decimal_text::append_number;
use rpo_hash::Params;
use run_chain::is_first_stack;
use sound_evidence::extract;
use statement::write_evidence;
use std::alloc::Global;
use std::thread::Threads;
use vm_field::{Bytes, Felts, Memory};
use vm_io::{Gate, Shelf};
use vm_state::Statement;

/// The files of a link.
#[derive(Clone, Copy)]
pub(crate) struct LinkFiles<'a> {
    pub table: &'a str,
    pub statement: &'a str,
}

/// Whose link is judged, and how.
#[derive(Clone, Copy)]
pub(crate) struct Judging {
    pub constants: Params,
    /// From 1 to 64.
    pub pieces: usize,
    pub seed: Seed,
}

/// Reads the files of a link, behind so many links, the last of which left these cells, and judges it: its
/// evidence is put behind the text, and the answer is its outputs.
///
/// # Errors
///
/// How the command ends: at a file, where the link does not follow, or where its trace is refused.
pub(crate) fn judge_link<R: Threads + Sync, F: Shelf, G: Gate>(
    rt: &R,
    alloc: Global,
    shelf: &mut F,
    gate: &G,
    judging: Judging,
    before: usize,
    left: Option<Felts>,
    link: LinkFiles<'_>,
    text: &mut Bytes,
) -> Result<Felts, Outcome>
    requires table { length link.table.now ≤ most_name_bytes }
    requires statement { length link.statement.now ≤ most_name_bytes }
    requires pieces { (1 ≤ judging.pieces) × (judging.pieces ≤ 64) }
    requires few { before < 64 }
    ensures goes { IfOk result (λ outputs. LinkGoesOn (constants_of judging.constants) before left (link_from link.entry) outputs text.old text.new
        (F.state shelf.old) (F.state shelf.new)) }
    ensures ends { IfErr result (λ end. EndsThere (link_steps (constants_of judging.constants) before left (link_from link.entry)) end
        (F.state shelf.old) (F.state shelf.new)) }
{
    let trace = load_trace(alloc, shelf, link.table)?;
    let statement = load_statement(alloc, shelf, link.statement)?;
    judge_claim(
        rt, alloc, gate, judging, before, left, trace, statement, text,
    )
}

// Holds a statement against what the link before left, and checks its trace.
fn judge_claim<R: Threads + Sync, G: Gate>(
    rt: &R,
    alloc: Global,
    gate: &G,
    judging: Judging,
    before: usize,
    left: Option<Felts>,
    trace: Trace,
    statement: Statement,
    text: &mut Bytes,
) -> Result<Felts, Outcome>
    requires counts { HasCounts trace }
    requires pieces { (1 ≤ judging.pieces) × (judging.pieces ≤ 64) }
    requires few { before < 64 }
    ensures outputs { IfOk result (λ outputs. outputs ≡ statement.outputs) }
    ensures grew { IfOk result (λ _. TextGrew (constants_of judging.constants) before (judged_of statement trace) text.old text.new) }
    ensures goes { IfOk result (λ _. GoesOn (constants_of judging.constants) before left (judged_of statement trace)) }
    ensures ends { IfErr result (EndsHere (constants_of judging.constants) before left (judged_of statement trace)) }
{
    if !does_follow(left.as_ref(), &statement) {
        return Err(broken_link(alloc, before as u64));
    }
    let public = Public {
        params: judging.constants,
        statement,
    };
    match check(rt, alloc, judging.seed, trace, public, judging.pieces, gate) {
        Ok(valid) => accept_link(alloc, before, &valid, text),
        Err(refused) => Err(refuse_link(alloc, before, &refused)),
    }
}

// Whether a statement follows what the link before left. The first one follows none.
fn does_follow(left: Option<&Felts>, statement: &Statement) -> bool
    ensures { result ≡ follows_on (option_map (λ cells. cells.now) left.entry) (stated_of statement.now) }
{
    match left {
        Some(cells) => is_first_stack(cells.as_slice(), statement.inputs.as_slice()),
        None => true,
    }
}

// Tells why the trace of a link is refused.
#[tactic(auto, using(cmd_kit::proofs::OutcomeLemmas::says_line))]
fn refuse_link(alloc: Global, before: usize, refused: &Refused) -> Outcome
    requires few { before < 64 }
    ensures says { SaysStatus result Status.Refused (line_of_link (before + 1) (refused_line refused.now)) }
    ensures memory { refused.now ≡ why.Memory → result ≡ outcome.Memory }
{
    match refused {
        Refused::Memory => Outcome::Memory,
        Refused::Fault(_) | Refused::Bus { .. } => answered(
            Status::Refused,
            refusal_of_link(alloc, before as u64 + 1, refused),
        ),
    }
}

fn refusal_of_link(alloc: Global, number: u64, refused: &Refused) -> Result<Bytes, Memory>
    ensures { IfOk result (λ line. line ≡ line_of_link number (refused_line refused.now)) }
{
    let line = refused_line(alloc, refused)?;
    text_of_link(alloc, number, line.as_slice())
}

// The evidence of a link that is accepted goes behind the text, and its outputs on to the next one.
fn accept_link(
    alloc: Global,
    before: usize,
    valid: &Valid,
    text: &mut Bytes,
) -> Result<Felts, Outcome>
    requires few { before < 64 }
    ensures outputs { IfOk result (λ outputs. outputs ≡ valid.now.public.statement.outputs) }
    ensures grew { IfOk result (λ _. TextGrew (constants_of valid.now.public.params) before
        (judged_of valid.now.public.statement valid.now.trace) text.old text.new) }
    ensures memory { IfErr result (λ end. end ≡ outcome.Memory) }
{
    match append_evidence(alloc, before as u64 + 1, valid, text) {
        Ok(outputs) => Ok(outputs),
        Err(_) => Err(Outcome::Memory),
    }
}

// `link K` and the text of evidence of it.
fn append_evidence(
    alloc: Global,
    number: u64,
    valid: &Valid,
    text: &mut Bytes,
) -> Result<Felts, Memory>
    ensures outputs { IfOk result (λ outputs. outputs ≡ valid.now.public.statement.outputs) }
    ensures evidence { IfOk result (λ _. HasEvidence valid.now.public valid.now.trace number text.old text.new) }
{
    let evidence = extract(alloc, valid)?;
    let written = write_evidence(alloc, &evidence)?;
    append_link(text, number)?;
    text.append(written.as_slice())?;
    Felts::copied(alloc, valid.public().statement.outputs.as_slice())
}

// `link K`
fn append_link(text: &mut Bytes, number: u64) -> Result<(), Memory>
    ensures { OnOk result (text.new ≡ text.old ++ link_line number) }
{
    text.append(b"link ")?;
    append_number(text, number)?;
    text.append(b"\n")
}
