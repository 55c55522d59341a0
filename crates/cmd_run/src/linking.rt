// `runs`: link by link, each source is run from the stack that the link before left, and its two files are written.
ghost use Rattle.std.specs.Prelude.{◌≡◌, ◌≤◌, ◌<◌, ◌+◌, ◌∷◌, ℕ, List, drop, length, map, None, Some, IfErr, IfOk, IfSome};
ghost use Rattle.std.specs.List.{AllByRecursion};
ghost use Rattle.vm_field.specs.Limits.{most_inputs, most_name_bytes, most_source_bytes};
ghost use Rattle.vm_io.specs.Shelf.{ShelfState};
ghost use Rattle.rpo_hash.specs.Constants.{constants_of};
ghost use Rattle.run_chain.specs.ListText.{IsLine};
ghost use Rattle.run_chain.specs.Lists.{links_of, most_links};
ghost use Rattle.statement.specs.Inputs.{Given, given_of};
ghost use Rattle.cmd_run.specs.Linking.{AreNamesOfLink, LinkSays, link_from};
ghost use Rattle.cmd_run.specs.Naming.{outputs_from};
ghost use Rattle.cmd_kit.specs.Links.{with_lines};
ghost use Rattle.cmd_kit.specs.Outcomes.{Continues, EndsIn, EndsThere, Loads, either};
ghost use Rattle.cmd_kit.specs.RunsSteps.{given_steps, link_running_steps, run_link, run_link_steps, runs_from, runs_given, runs_steps};
ghost use Rattle.cmd_kit.specs.Sources.{file_of};
ghost use Rattle.cmd_kit.specs.Steps.{Steps};

use crate::course::course_of;
use crate::link_files::save_link;
use crate::link_lines::links_text;
use crate::outputs::Outputs;
use cmd_kit::{
    MOST_LIST_BYTES, Outcome, SourceFile, Status, answered, broken_link, lines_of_list, load,
    load_inputs, load_params, load_source, malformed_text, text_of_link,
};
use rpo_hash::Params;
use run_chain::{Links, list_laws};
use statement::TextCause;
use std::alloc::Global;
use std::thread::Threads;
use vm_field::{Felts, MOST_CYCLES, MOST_INPUTS};
use vm_io::{Gate, Shelf};
use vm_state::Inputs;

// The files of a link.
#[derive(Clone, Copy)]
struct LinkFiles<'a> {
    source: &'a str,
    inputs: &'a str,
    outputs: Outputs<'a>,
}

/// `runs`: reads the parameters and the list, and then runs one link after another: it reads the link's source
/// and inputs, runs them within the most cycles of a run, and writes its tables and its statement, before anything
/// of the next link is read. The tables are filled in `FILL_PIECES` pieces at once, of which each goes through the gate.
pub fn run_linked_files<R: Threads + Sync, F: Shelf, G: Gate>(
    rt: &R,
    alloc: Global,
    shelf: &mut F,
    gate: &G,
    params: &str,
    list: &str,
) -> Outcome
    requires params { length params.now ≤ most_name_bytes }
    requires list { length list.now ≤ most_name_bytes }
    ensures { EndsIn (Some (runs_steps params.now list.now)) result (F.state shelf.old) (F.state shelf.new) }
{
    match read_and_run_links(rt, alloc, shelf, gate, params, list) {
        Ok(end) | Err(end) => end,
    }
}

// Reads the parameters and the list, and goes from link to link.
fn read_and_run_links<R: Threads + Sync, F: Shelf, G: Gate>(
    rt: &R,
    alloc: Global,
    shelf: &mut F,
    gate: &G,
    params: &str,
    list: &str,
) -> Result<Outcome, Outcome>
    requires params { length params.now ≤ most_name_bytes }
    requires list { length list.now ≤ most_name_bytes }
    ensures { EndsIn (Some (runs_steps params.now list.now)) (either result) (F.state shelf.old) (F.state shelf.new) }
{
    let constants = load_params(alloc, shelf, params)?;
    let bytes = load(alloc, shelf, list, MOST_LIST_BYTES)?;
    run_lines(
        rt,
        alloc,
        shelf,
        gate,
        &constants,
        bytes.as_slice(),
        params,
        list,
    )
}

// Runs the links that the bytes of the list name.
fn run_lines<'n, R: Threads + Sync, F: Shelf, G: Gate>(
    rt: &R,
    alloc: Global,
    shelf: &mut F,
    gate: &G,
    constants: &Params,
    bytes: &'n [u8],
    params: &'n str,
    list: &'n str,
) -> Result<Outcome, Outcome>
    ensures { EndsIn (Some (with_lines list.now (λ lines. runs_from (constants_of constants.now) 0 None (map run_link lines))
        (links_of (runs_given params.now list.now) bytes.now))) (either result) (F.state shelf.old) (F.state shelf.new) }
{
    let links = lines_of_list(alloc, bytes, params, list, None)?;
    list_laws();
    links_from(rt, alloc, shelf, gate, constants, &links, 0, None)
}

// Runs the links behind so many, the last of which left these cells.
fn links_from<R: Threads + Sync, F: Shelf, G: Gate>(
    rt: &R,
    alloc: Global,
    shelf: &mut F,
    gate: &G,
    constants: &Params,
    links: &Links<'_>,
    before: usize,
    left: Option<Felts>,
) -> Result<Outcome, Outcome>
    requires lines { AllByRecursion (IsLine 4) links.now }
    requires few { length links.now ≤ most_links }
    requires before { before ≤ length links.now }
    requires short { before < length links.now → IfSome left (λ cells. length cells ≤ most_inputs) }
    ensures { EndsIn (Some (runs_from (constants_of constants.now) before left (map run_link (drop before links.now)))) (either result)
        (F.state shelf.old) (F.state shelf.new) }
{
    if before == links.len() {
        return Ok(answered(Status::Ok, links_text(alloc, before as u64, left.as_ref())));
    }
    let link = files_of_link(links, before);
    let outputs = run_one(rt, alloc, shelf, gate, constants, before, left, link)?;
    if before + 1 < links.len() && outputs.len() > MOST_INPUTS {
        return Err(broken_link(alloc, before as u64 + 1));
    }
    links_from(
        rt,
        alloc,
        shelf,
        gate,
        constants,
        links,
        before + 1,
        Some(outputs),
    )
}

// The four names of a line.
fn files_of_link<'a>(links: &Links<'a>, line: usize) -> LinkFiles<'a>
    requires lines { AllByRecursion (IsLine 4) links.now }
    requires within { line < length links.now }
    ensures link { map run_link (drop line links.now) ≡ link_from result ∷ map run_link (drop (line + 1) links.now) }
    ensures named { AreNamesOfLink result }
{
    match links.names(line) {
        [source, inputs, table, statement] => LinkFiles {
            source,
            inputs,
            outputs: Outputs { table, statement },
        },
        _ => unreachable!(),
    }
}

// Reads the source and the inputs of a link, behind so many links, the last of which left these cells, and runs it: the
// answer is what it left.
fn run_one<R: Threads + Sync, F: Shelf, G: Gate>(
    rt: &R,
    alloc: Global,
    shelf: &mut F,
    gate: &G,
    constants: &Params,
    before: usize,
    left: Option<Felts>,
    link: LinkFiles<'_>,
) -> Result<Felts, Outcome>
    requires named { AreNamesOfLink link }
    requires few { before < most_links }
    requires short { IfSome left (λ cells. length cells ≤ most_inputs) }
    ensures loads { IfOk result (λ outputs. Loads (run_link_steps (constants_of constants.now) before left (link_from link.entry)) outputs
        (F.state shelf.old) (F.state shelf.new)) }
    ensures ends { IfErr result (λ end. EndsThere (run_link_steps (constants_of constants.now) before left (link_from link.entry)) end
        (F.state shelf.old) (F.state shelf.new)) }
{
    let source = load_source(alloc, shelf, link.source)?;
    let given = load_inputs(alloc, shelf, link.inputs)?;
    let inputs = begun(alloc, link.inputs, left, given)?;
    run_source(
        rt,
        alloc,
        shelf,
        gate,
        constants,
        before,
        &source,
        inputs,
        link.outputs,
    )
}

// What a run begins with: the first one with the stack of its inputs, a later one with what the link before left, where its
// inputs have no stack.
fn begun(alloc: Global, name: &str, left: Option<Felts>, given: Inputs) -> Result<Inputs, Outcome>
    requires { IfSome left (λ cells. length cells ≤ most_inputs) }
    ensures begins { IfOk result (λ inputs. (s : ShelfState) (next : Given → Steps)
        → Continues (given_steps name.now left next (given_of given)) (next (given_of inputs)) s s) }
    ensures ends { IfErr result (λ end. (s : ShelfState) (next : Given → Steps)
        → EndsIn (Some (given_steps name.now left next (given_of given))) end s s) }
{
    let Some(cells) = left else {
        return Ok(given);
    };
    if !given.stack.is_empty() {
        return Err(malformed_text(alloc, name, TextCause::Count));
    }
    Ok(Inputs::new(cells, given.advice))
}

// Runs a source, and writes the files of its run.
fn run_source<R: Threads + Sync, F: Shelf, G: Gate>(
    rt: &R,
    alloc: Global,
    shelf: &mut F,
    gate: &G,
    constants: &Params,
    before: usize,
    source: &SourceFile<'_>,
    inputs: Inputs,
    outputs: Outputs<'_>,
) -> Result<Felts, Outcome>
    requires source { length source.now.text ≤ most_source_bytes }
    requires few { before < most_links }
    requires table { length outputs.table.now ≤ most_name_bytes }
    requires statement { length outputs.statement.now ≤ most_name_bytes }
    ensures loads { IfOk result (λ left. (next : List ℕ → Steps) → Continues (link_running_steps (constants_of constants.now) before
        (outputs_from outputs.entry) next (file_of source.now) (given_of inputs)) (next left) (F.state shelf.old) (F.state shelf.new)) }
    ensures ends { IfErr result (λ end. (next : List ℕ → Steps) → EndsIn (Some (link_running_steps (constants_of constants.now) before
        (outputs_from outputs.entry) next (file_of source.now) (given_of inputs))) end (F.state shelf.old) (F.state shelf.new)) }
{
    match course_of(alloc, constants, source, None, &inputs, MOST_CYCLES) {
        Ok(course) => save_link(rt, alloc, shelf, gate, constants, inputs, course, outputs),
        Err(end) => Err(told_of_link(alloc, before, end)),
    }
}

// How a link ends that does not run to an end: the answer has the link's number in front.
fn told_of_link(alloc: Global, before: usize, end: Outcome) -> Outcome
    requires { before < most_links }
    ensures { LinkSays (before + 1) end result }
{
    match end {
        Outcome::Ends(answer) => answered(
            answer.status,
            text_of_link(alloc, before as u64 + 1, answer.line.as_slice()),
        ),
        Outcome::Memory => Outcome::Memory,
    }
}
