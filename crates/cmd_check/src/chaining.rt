// `chain`: link by link, each statement against the one before it and each trace against its statement; the evidence of all is written.
ghost use Rattle.std.specs.Prelude.{◌≡◌, ◌≤◌, ◌<◌, ◌+◌, ◌∷◌, ℕ, List, [], drop, length, map, Option, Some, None, IfOk};
ghost use Rattle.std.specs.List.{AllByRecursion};
ghost use Rattle.vm_field.specs.Limits.{most_name_bytes};
ghost use Rattle.rpo_hash.specs.Constants.{constants_of};
ghost use Rattle.run_chain.specs.ListText.{IsLine};
ghost use Rattle.run_chain.specs.Lists.{most_links};
ghost use Rattle.cmd_check.specs.Judging.{link_from};
ghost use Rattle.cmd_check.specs.Chaining.{IsChainJob};
ghost use Rattle.cmd_kit.specs.ChainEnds.{IsChainText, accepted_links_line};
ghost use Rattle.cmd_kit.specs.ChainSteps.{chain_from, chain_link, chain_steps};
ghost use Rattle.cmd_kit.specs.Outcomes.{EndsIn, either};
ghost use Rattle.cmd_kit.specs.Steps.{Judged};

use crate::judging::{Judging, LinkFiles, judge_link};
use checker::Seed;
use cmd_kit::{MOST_LIST_BYTES, Outcome, Status, answered, lines_of_list, load, load_params, save};
use decimal_text::append_number;
use run_chain::{Links, list_laws};
use std::alloc::Global;
use std::thread::Threads;
use vm_field::{Bytes, Felts, Memory};
use vm_io::{Gate, Shelf};

/// The files of `chain` behind the parameters, and in how many pieces each trace is checked.
#[derive(Clone, Copy)]
pub struct ChainNames<'a> {
    /// The list of the links.
    pub list: &'a str,
    /// The file that is written.
    pub evidence: &'a str,
    /// From 1 to 64. No answer depends on it.
    pub pieces: usize,
}

// The links of a chain, how they are judged, and where their evidence goes.
#[derive(Drop)]
struct Chain<'a> {
    links: Links<'a>,
    judging: Judging,
    evidence: &'a str,
}

/// `chain`: reads the parameters and the list, and then the files of one link after another. Each link is
/// judged, and its trace given up, before anything of the next one is read.
pub fn chain_files<R: Threads + Sync, F: Shelf, G: Gate>(
    rt: &R,
    alloc: Global,
    seed: Seed,
    shelf: &mut F,
    gate: &G,
    params: &str,
    names: ChainNames<'_>,
) -> Outcome
    requires params { length params.now ≤ most_name_bytes }
    requires list { length names.list.now ≤ most_name_bytes }
    requires evidence { length names.evidence.now ≤ most_name_bytes }
    requires pieces { (1 ≤ names.pieces) × (names.pieces ≤ 64) }
    ensures { EndsIn (Some (chain_steps params.now names.entry.list.now names.entry.evidence.now)) result (F.state shelf.old) (F.state shelf.new) }
{
    match read_and_chain(rt, alloc, seed, shelf, gate, params, names) {
        Ok(end) | Err(end) => end,
    }
}

// Reads the parameters and the list, and goes from link to link.
fn read_and_chain<R: Threads + Sync, F: Shelf, G: Gate>(
    rt: &R,
    alloc: Global,
    seed: Seed,
    shelf: &mut F,
    gate: &G,
    params: &str,
    names: ChainNames<'_>,
) -> Result<Outcome, Outcome>
    requires params { length params.now ≤ most_name_bytes }
    requires list { length names.list.now ≤ most_name_bytes }
    requires evidence { length names.evidence.now ≤ most_name_bytes }
    requires pieces { (1 ≤ names.pieces) × (names.pieces ≤ 64) }
    ensures { EndsIn (Some (chain_steps params.now names.entry.list.now names.entry.evidence.now)) (either result)
        (F.state shelf.old) (F.state shelf.new) }
{
    let constants = load_params(alloc, shelf, params)?;
    let bytes = load(alloc, shelf, names.list, MOST_LIST_BYTES)?;
    let links = lines_of_list(
        alloc,
        bytes.as_slice(),
        params,
        names.list,
        Some(names.evidence),
    )?;
    list_laws();
    let chain = Chain {
        links,
        judging: Judging {
            constants,
            pieces: names.pieces,
            seed,
        },
        evidence: names.evidence,
    };
    links_from(rt, alloc, shelf, gate, &chain, 0, None, Bytes::new(alloc))
}

// Judges the links behind so many, the last of which left these cells, and writes the evidence of all.
fn links_from<R: Threads + Sync, F: Shelf, G: Gate>(
    rt: &R,
    alloc: Global,
    shelf: &mut F,
    gate: &G,
    chain: &Chain<'_>,
    before: usize,
    left: Option<Felts>,
    text: Bytes,
) -> Result<Outcome, Outcome>
    requires job { IsChainJob chain.now }
    requires before { before ≤ length chain.now.links }
    ensures { (judged : List Judged) → length judged ≡ before → IsChainText (constants_of chain.now.judging.constants) judged text
        → EndsIn (Some (chain_from (constants_of chain.now.judging.constants) chain.now.evidence.now judged left
        (map chain_link (drop before chain.now.links)))) (either result) (F.state shelf.old) (F.state shelf.new) }
{
    if before == chain.links.len() {
        return Ok(save_chain(alloc, shelf, chain.evidence, before, &text));
    }
    let link = files_of_link(&chain.links, before);
    let mut text = text;
    let outputs = judge_link(
        rt,
        alloc,
        shelf,
        gate,
        chain.judging,
        before,
        left,
        link,
        &mut text,
    )?;
    links_from(
        rt,
        alloc,
        shelf,
        gate,
        chain,
        before + 1,
        Some(outputs),
        text,
    )
}

// The two names of a line.
fn files_of_link<'a>(links: &Links<'a>, line: usize) -> LinkFiles<'a>
    requires lines { AllByRecursion (IsLine 2) links.now }
    requires within { line < length links.now }
    ensures link { map chain_link (drop line links.now) ≡ link_from result ∷ map chain_link (drop (line + 1) links.now) }
    ensures table { length result.table.now ≤ most_name_bytes }
    ensures statement { length result.statement.now ≤ most_name_bytes }
{
    match links.names(line) {
        [table, statement] => LinkFiles { table, statement },
        _ => unreachable!(),
    }
}

// Writes the evidence of all links, and tells how many were accepted.
fn save_chain<F: Shelf>(
    alloc: Global,
    shelf: &mut F,
    name: &str,
    number: usize,
    text: &Bytes,
) -> Outcome
    requires name { length name.now ≤ most_name_bytes }
    requires few { number ≤ most_links }
    ensures { (constants : List ℕ) (judged : List Judged) (left : Option (List ℕ)) → length judged ≡ number → IsChainText constants judged text.now
        → EndsIn (Some (chain_from constants name.now judged left [])) result (F.state shelf.old) (F.state shelf.new) }
{
    match save(alloc, shelf, name, text.as_slice()) {
        Ok(()) => answered(Status::Ok, accepted_text(alloc, number as u64)),
        Err(end) => end,
    }
}

// `accepted links N`
fn accepted_text(alloc: Global, number: u64) -> Result<Bytes, Memory>
    ensures { IfOk result (λ line. line ≡ accepted_links_line number) }
{
    let mut line = Bytes::copied(alloc, b"accepted links ")?;
    append_number(&mut line, number)?;
    line.append(b"\n")?;
    Ok(line)
}
