//! What the words behind a command's name ask for.
ghost use Rattle.std.specs.Prelude.{◌≡◌, ◌≤◌, ◌∷◌, length, map, option_map, None, Some, IfOk, IfSome};
ghost use Rattle.std.specs.List.{list_any};
ghost use Rattle.std.specs.Str.{bytes_eq};
ghost use Rattle.vm_field.specs.Limits.{most_cycles, most_name_bytes};
ghost use Rattle.cmd_reading.specs.Form.{AllText};
ghost use Rattle.cmd_reading.specs.Meaning.{texts_read};
ghost use Rattle.cmd_kit.specs.Asked.{chain_of_names, check_against, given_name, make_apart, member_apart, most_depth, most_pieces, run_apart};
ghost use Rattle.cmd_run.specs.Naming.{AreNamed, outputs_from};
ghost use Rattle.cmd_make.specs.Naming as made;
ghost use Rattle.workloads.specs.Workloads.{most_turns};
ghost use Rattle.miden_app.specs.Asking.{asks, NamesFiles};
ghost use Rattle.miden_app.specs.Forms.{asked_by, asked_in, assemble_in, chain_in, check_in, hash_in, limit_read, made_names_read, make_in, member_in, outputs_read, run_in, runs_in};

use crate::names::{CommandName, form_of_command};
use cmd_make::MadeNames;
use cmd_reading::{
    ReadWords, WordsStop, free_name, free_number, free_number_or_most, needed_name, needed_number,
    place_name, place_number, read_words,
};
use cmd_run::Outputs;
use std::alloc::Global;
use vm_field::{MOST_CYCLES, Memory};
use workloads::MOST_TURNS;

/// The most pieces that a trace is checked in.
const MOST_PIECES: u64 = 64;

/// The most steps of a path.
const MOST_DEPTH: u64 = 64;

/// What words ask for.
pub enum Command<'a> {
    /// The words are of no command.
    Nothing,
    /// `hash` of numbers under parameters.
    Hash {
        params: &'a str,
        numbers: &'a str,
    },
    /// `assemble` of a source, with a kernel where one is named.
    Assemble {
        params: &'a str,
        source: &'a str,
        kernel: Option<&'a str>,
    },
    /// `run` of a source on inputs, with a kernel where one is named, into a table file and a statement.
    Run {
        params: &'a str,
        source: &'a str,
        inputs: &'a str,
        outputs: Outputs<'a>,
        kernel: Option<&'a str>,
        limit: u32,
    },
    /// `check` of a table file against a statement, with the name of the evidence.
    Check {
        params: &'a str,
        table: &'a str,
        statement: &'a str,
        evidence: &'a str,
        /// In how many pieces, from 1 to 64.
        pieces: usize,
    },
    /// The same against a source, with a kernel where one is named.
    CheckSource {
        params: &'a str,
        table: &'a str,
        statement: &'a str,
        evidence: &'a str,
        source: &'a str,
        kernel: Option<&'a str>,
        /// In how many pieces, from 1 to 64.
        pieces: usize,
    },
    /// `make` of a workload of so many turns, into a source and inputs.
    Make {
        params: &'a str,
        turns: u32,
        names: MadeNames<'a>,
    },
    /// `chain` of the links that a list names, with the name of the evidence.
    Chain {
        params: &'a str,
        list: &'a str,
        evidence: &'a str,
        /// In how many pieces, from 1 to 64.
        pieces: usize,
    },
    /// `runs` of the links that a list names, one from what the other left.
    Runs {
        params: &'a str,
        list: &'a str,
    },
    /// `member`: `check` against the program that walks a Merkle path, with the name of the evidence.
    Member {
        params: &'a str,
        table: &'a str,
        statement: &'a str,
        evidence: &'a str,
        /// The steps of the path, from 1 to 64.
        depth: u32,
        /// In how many pieces, from 1 to 64.
        pieces: usize,
    },
}

/// Reads the words behind the command's name.
///
/// Words of no such form, and words that name no files or other numbers, ask for nothing.
pub fn command_of<'a>(
    alloc: Global,
    name: CommandName,
    words: &'a [&'a str],
) -> Result<Command<'a>, Memory>
    requires text { AllText (map (λ s. s.now) words.now) }
    ensures asks { IfOk result (λ c. asks c ≡ asked_by name (map (λ s. s.now) words.entry.now)) }
    ensures named { IfOk result NamesFiles }
{
    let form = form_of_command(name);
    match read_words(alloc, form.places, form.needed, form.free, words) {
        Ok(read) => Ok(command_in(name, &read)),
        Err(WordsStop::Usage) => Ok(Command::Nothing),
        Err(WordsStop::Memory) => Err(Memory::Memory),
    }
}

// The command of the texts that were read.
fn command_in<'a>(name: CommandName, read: &ReadWords<'a>) -> Command<'a>
    ensures asks { asks result ≡ asked_in name (texts_read read.now) }
    ensures named { NamesFiles result }
{
    match name {
        CommandName::Check => check_of(read),
        CommandName::Hash => hash_of(read),
        CommandName::Assemble => assemble_of(read),
        CommandName::Run => run_of(read),
        CommandName::Make => make_of(read),
        CommandName::Chain => chain_of(read),
        CommandName::Runs => runs_of(read),
        CommandName::Member => member_of(read),
    }
}

fn check_of<'a>(read: &ReadWords<'a>) -> Command<'a>
    ensures asks { asks result ≡ check_in (texts_read read.now) }
    ensures named { NamesFiles result }
{
    let Some(params) = place_name(read, 0) else {
        return Command::Nothing;
    };
    let Some(table) = place_name(read, 1) else {
        return Command::Nothing;
    };
    let Some(statement) = place_name(read, 2) else {
        return Command::Nothing;
    };
    let (Some(source), Some(kernel)) = (free_name(read, 1), free_name(read, 2)) else {
        return Command::Nothing;
    };
    match (needed_name(read, 0), free_number(1, MOST_PIECES, read, 0)) {
        (Some(Some(evidence)), Some(pieces)) => {
            check_with(params, table, statement, evidence, pieces, source, kernel)
        }
        _ => Command::Nothing,
    }
}

// In how many pieces a trace is checked: one where the words do not say.
fn pieces_of(said: Option<u64>) -> usize
    requires some { IfSome said (λ n. 1 ≤ n) }
    requires few { IfSome said (λ n. n ≤ most_pieces) }
    ensures some { 1 ≤ result }
    ensures few { result ≤ most_pieces }
{
    match said {
        Some(pieces) => pieces as usize,
        None => 1,
    }
}

// With a source or without; a kernel belongs to a source.
fn check_with<'a>(
    params: &'a str,
    table: &'a str,
    statement: &'a str,
    evidence: &'a str,
    pieces: Option<u64>,
    source: Option<&'a str>,
    kernel: Option<&'a str>,
) -> Command<'a>
    requires params { length params.now ≤ most_name_bytes }
    requires table { length table.now ≤ most_name_bytes }
    requires statement { length statement.now ≤ most_name_bytes }
    requires evidence { length evidence.now ≤ most_name_bytes }
    requires some { IfSome pieces (λ n. 1 ≤ n) }
    requires few { IfSome pieces (λ n. n ≤ most_pieces) }
    requires source { IfSome source (λ s. length s.now ≤ most_name_bytes) }
    requires kernel { IfSome kernel (λ k. length k.now ≤ most_name_bytes) }
    ensures asks { asks result ≡ check_against params.entry.now table.entry.now statement.entry.now evidence.entry.now
        (option_map (λ s. s.now) source.entry) (option_map (λ k. k.now) kernel.entry) }
    ensures named { NamesFiles result }
{
    match (source, kernel) {
        (Some(source), kernel) => {
            check_for(params, table, statement, evidence, pieces, source, kernel)
        }
        (None, Some(_)) => Command::Nothing,
        (None, None) => check_alone(params, table, statement, evidence, pieces),
    }
}

// The evidence is written, so that no other file may have its name.
fn check_alone<'a>(
    params: &'a str,
    table: &'a str,
    statement: &'a str,
    evidence: &'a str,
    pieces: Option<u64>,
) -> Command<'a>
    requires params { length params.now ≤ most_name_bytes }
    requires table { length table.now ≤ most_name_bytes }
    requires statement { length statement.now ≤ most_name_bytes }
    requires evidence { length evidence.now ≤ most_name_bytes }
    requires some { IfSome pieces (λ n. 1 ≤ n) }
    requires few { IfSome pieces (λ n. n ≤ most_pieces) }
    ensures asks { asks result ≡ check_against params.entry.now table.entry.now statement.entry.now evidence.entry.now None None }
    ensures named { NamesFiles result }
{
    if evidence == params || evidence == table || evidence == statement {
        return Command::Nothing;
    }
    Command::Check {
        params,
        table,
        statement,
        evidence,
        pieces: pieces_of(pieces),
    }
}

// The same beside a source and its kernel.
fn check_for<'a>(
    params: &'a str,
    table: &'a str,
    statement: &'a str,
    evidence: &'a str,
    pieces: Option<u64>,
    source: &'a str,
    kernel: Option<&'a str>,
) -> Command<'a>
    requires params { length params.now ≤ most_name_bytes }
    requires table { length table.now ≤ most_name_bytes }
    requires statement { length statement.now ≤ most_name_bytes }
    requires evidence { length evidence.now ≤ most_name_bytes }
    requires some { IfSome pieces (λ n. 1 ≤ n) }
    requires few { IfSome pieces (λ n. n ≤ most_pieces) }
    requires source { length source.now ≤ most_name_bytes }
    requires kernel { IfSome kernel (λ k. length k.now ≤ most_name_bytes) }
    ensures asks { asks result ≡ check_against params.entry.now table.entry.now statement.entry.now evidence.entry.now
        (Some source.entry.now) (option_map (λ k. k.now) kernel.entry) }
    ensures named { NamesFiles result }
{
    if is_checked(evidence, params, table, statement, source, kernel) {
        return Command::Nothing;
    }
    Command::CheckSource {
        params,
        table,
        statement,
        evidence,
        source,
        kernel,
        pieces: pieces_of(pieces),
    }
}

// Whether a name is that of a file which `check` reads beside a source.
fn is_checked(
    name: &str,
    params: &str,
    table: &str,
    statement: &str,
    source: &str,
    kernel: Option<&str>,
) -> bool
    ensures { result ≡ list_any (bytes_eq name.now)
        (params.now ∷ table.now ∷ statement.now ∷ source.now ∷ given_name (option_map (λ k. k.now) kernel.entry)) }
{
    let is_kernel = match kernel {
        Some(kernel) => name == kernel,
        None => false,
    };
    name == params || name == table || name == statement || name == source || is_kernel
}

fn hash_of<'a>(read: &ReadWords<'a>) -> Command<'a>
    ensures asks { asks result ≡ hash_in (texts_read read.now) }
    ensures named { NamesFiles result }
{
    match (place_name(read, 0), place_name(read, 1)) {
        (Some(params), Some(numbers)) => Command::Hash { params, numbers },
        _ => Command::Nothing,
    }
}

fn assemble_of<'a>(read: &ReadWords<'a>) -> Command<'a>
    ensures asks { asks result ≡ assemble_in (texts_read read.now) }
    ensures named { NamesFiles result }
{
    let Some(params) = place_name(read, 0) else {
        return Command::Nothing;
    };
    let Some(source) = place_name(read, 1) else {
        return Command::Nothing;
    };
    match free_name(read, 0) {
        Some(kernel) => Command::Assemble {
            params,
            source,
            kernel,
        },
        None => Command::Nothing,
    }
}

fn run_of<'a>(read: &ReadWords<'a>) -> Command<'a>
    ensures asks { asks result ≡ run_in (texts_read read.now) }
    ensures named { NamesFiles result }
{
    let Some(params) = place_name(read, 0) else {
        return Command::Nothing;
    };
    let Some(source) = place_name(read, 1) else {
        return Command::Nothing;
    };
    let Some(inputs) = place_name(read, 2) else {
        return Command::Nothing;
    };
    let Some(outputs) = outputs_of(read) else {
        return Command::Nothing;
    };
    match (free_name(read, 0), limit_of(read)) {
        (Some(kernel), Some(limit)) => run_with(params, source, inputs, outputs, kernel, limit),
        _ => Command::Nothing,
    }
}

// The names of the files that `run` writes.
fn outputs_of<'a>(read: &ReadWords<'a>) -> Option<Outputs<'a>>
    ensures is { option_map outputs_from result ≡ outputs_read (texts_read read.now) }
    ensures named { IfSome result AreNamed }
{
    match (needed_name(read, 0), needed_name(read, 1)) {
        (Some(Some(table)), Some(Some(statement))) => Some(Outputs { table, statement }),
        _ => None,
    }
}

// Two files are written, so that no other file may have the name of one of them.
fn run_with<'a>(
    params: &'a str,
    source: &'a str,
    inputs: &'a str,
    outputs: Outputs<'a>,
    kernel: Option<&'a str>,
    limit: u32,
) -> Command<'a>
    requires params { length params.now ≤ most_name_bytes }
    requires source { length source.now ≤ most_name_bytes }
    requires inputs { length inputs.now ≤ most_name_bytes }
    requires outputs { AreNamed outputs }
    requires kernel { IfSome kernel (λ k. length k.now ≤ most_name_bytes) }
    requires limit { limit ≤ most_cycles }
    ensures asks { asks result ≡ run_apart params.entry.now source.entry.now inputs.entry.now (outputs_from outputs.entry)
        (option_map (λ k. k.now) kernel.entry) limit }
    ensures named { NamesFiles result }
{
    let Outputs { table, statement } = outputs;
    if table == statement || is_read(table, params, source, inputs, kernel) {
        return Command::Nothing;
    }
    if is_read(statement, params, source, inputs, kernel) {
        return Command::Nothing;
    }
    Command::Run {
        params,
        source,
        inputs,
        outputs,
        kernel,
        limit,
    }
}

// Whether a name is that of a file which `run` reads.
fn is_read(name: &str, params: &str, source: &str, inputs: &str, kernel: Option<&str>) -> bool
    ensures { result ≡ list_any (bytes_eq name.now) (params.now ∷ source.now ∷ inputs.now ∷ given_name (option_map (λ k. k.now) kernel.entry)) }
{
    let is_kernel = match kernel {
        Some(kernel) => name == kernel,
        None => false,
    };
    name == params || name == source || name == inputs || is_kernel
}

// The limit of cycles that the words give, the most where they give none.
fn limit_of(read: &ReadWords<'_>) -> Option<u32>
    ensures is { result ≡ limit_read (texts_read read.now) }
    ensures small { IfSome result (λ limit. limit ≤ most_cycles) }
{
    match free_number_or_most(1, u64::from(MOST_CYCLES), read, 1) {
        Some(limit) => Some(limit as u32),
        None => None,
    }
}

fn make_of<'a>(read: &ReadWords<'a>) -> Command<'a>
    ensures asks { asks result ≡ make_in (texts_read read.now) }
    ensures named { NamesFiles result }
{
    let Some(params) = place_name(read, 0) else {
        return Command::Nothing;
    };
    let Some(turns) = place_number(1, u64::from(MOST_TURNS), read, 1) else {
        return Command::Nothing;
    };
    match made_names_of(read) {
        Some(names) => make_with(params, turns as u32, names),
        None => Command::Nothing,
    }
}

// The names of the files that `make` writes.
fn made_names_of<'a>(read: &ReadWords<'a>) -> Option<MadeNames<'a>>
    ensures is { option_map made.names_from result ≡ made_names_read (texts_read read.now) }
    ensures named { IfSome result made.AreNamed }
{
    match (needed_name(read, 0), needed_name(read, 1)) {
        (Some(Some(source)), Some(Some(inputs))) => Some(MadeNames { source, inputs }),
        _ => None,
    }
}

// Two files are written, so that neither may have the name of the other one or of the parameters.
fn make_with<'a>(params: &'a str, turns: u32, names: MadeNames<'a>) -> Command<'a>
    requires params { length params.now ≤ most_name_bytes }
    requires some { 1 ≤ turns }
    requires few { turns ≤ most_turns }
    requires names { made.AreNamed names }
    ensures asks { asks result ≡ make_apart params.entry.now turns (made.names_from names.entry) }
    ensures named { NamesFiles result }
{
    let MadeNames { source, inputs } = names;
    if source == inputs || source == params || inputs == params {
        return Command::Nothing;
    }
    Command::Make {
        params,
        turns,
        names,
    }
}

fn chain_of<'a>(read: &ReadWords<'a>) -> Command<'a>
    ensures asks { asks result ≡ chain_in (texts_read read.now) }
    ensures named { NamesFiles result }
{
    let Some(params) = place_name(read, 0) else {
        return Command::Nothing;
    };
    let Some(list) = place_name(read, 1) else {
        return Command::Nothing;
    };
    match (needed_name(read, 0), free_number(1, MOST_PIECES, read, 0)) {
        (Some(Some(evidence)), Some(pieces)) => chain_with(params, list, evidence, pieces),
        _ => Command::Nothing,
    }
}

// The evidence is written, so that neither other file may have its name.
fn chain_with<'a>(
    params: &'a str,
    list: &'a str,
    evidence: &'a str,
    pieces: Option<u64>,
) -> Command<'a>
    requires params { length params.now ≤ most_name_bytes }
    requires list { length list.now ≤ most_name_bytes }
    requires evidence { length evidence.now ≤ most_name_bytes }
    requires some { IfSome pieces (λ n. 1 ≤ n) }
    requires few { IfSome pieces (λ n. n ≤ most_pieces) }
    ensures asks { asks result ≡ chain_of_names (Some params.entry.now) (Some list.entry.now) (Some (Some evidence.entry.now)) (Some pieces) }
    ensures named { NamesFiles result }
{
    if evidence == params || evidence == list {
        return Command::Nothing;
    }
    Command::Chain {
        params,
        list,
        evidence,
        pieces: pieces_of(pieces),
    }
}

fn runs_of<'a>(read: &ReadWords<'a>) -> Command<'a>
    ensures asks { asks result ≡ runs_in (texts_read read.now) }
    ensures named { NamesFiles result }
{
    match (place_name(read, 0), place_name(read, 1)) {
        (Some(params), Some(list)) => Command::Runs { params, list },
        _ => Command::Nothing,
    }
}

fn member_of<'a>(read: &ReadWords<'a>) -> Command<'a>
    ensures asks { asks result ≡ member_in (texts_read read.now) }
    ensures named { NamesFiles result }
{
    let Some(params) = place_name(read, 0) else {
        return Command::Nothing;
    };
    let Some(table) = place_name(read, 1) else {
        return Command::Nothing;
    };
    let Some(statement) = place_name(read, 2) else {
        return Command::Nothing;
    };
    let Some(Some(depth)) = needed_number(1, MOST_DEPTH, read, 0) else {
        return Command::Nothing;
    };
    match (needed_name(read, 1), free_number(1, MOST_PIECES, read, 0)) {
        (Some(Some(evidence)), Some(pieces)) => {
            member_with(params, table, statement, depth as u32, evidence, pieces)
        }
        _ => Command::Nothing,
    }
}

// The evidence is written, so that no other file may have its name.
fn member_with<'a>(
    params: &'a str,
    table: &'a str,
    statement: &'a str,
    depth: u32,
    evidence: &'a str,
    pieces: Option<u64>,
) -> Command<'a>
    requires params { length params.now ≤ most_name_bytes }
    requires table { length table.now ≤ most_name_bytes }
    requires statement { length statement.now ≤ most_name_bytes }
    requires least { 1 ≤ depth }
    requires most { depth ≤ most_depth }
    requires evidence { length evidence.now ≤ most_name_bytes }
    requires some { IfSome pieces (λ n. 1 ≤ n) }
    requires few { IfSome pieces (λ n. n ≤ most_pieces) }
    ensures asks { asks result ≡ member_apart params.entry.now table.entry.now statement.entry.now evidence.entry.now depth }
    ensures named { NamesFiles result }
{
    if evidence == params || evidence == table || evidence == statement {
        return Command::Nothing;
    }
    Command::Member {
        params,
        table,
        statement,
        evidence,
        depth,
        pieces: pieces_of(pieces),
    }
}
