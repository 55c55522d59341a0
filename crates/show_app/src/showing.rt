//! The work of the command that words ask for.
ghost use Rattle.std.specs.Prelude.{◌≡◌, codes, map, IfOk};
ghost use Rattle.cmd_words.specs.Words.{texts};
ghost use Rattle.cmd_reading.specs.Form.{AllText};
ghost use Rattle.cmd_kit.specs.Outcomes.{EndsIn, SaysStatus};
ghost use Rattle.show_app.specs.Asking.{asks, NamesFiles};
ghost use Rattle.show_app.specs.Named.{asked_as};
ghost use Rattle.show_app.specs.Showing.{show_words, shown, table_words};
ghost use Rattle.show_app.specs.ShowSteps.{steps_of};

use crate::explaining::{ExplainNames, explain_files};
use crate::forms::Form;
use crate::names::{CommandName, command_named};
use crate::telling::{tell_evidence, tell_rows, tell_run};
use crate::words::{Command, command_of};
use checker::Seed;
use cmd_kit::{Outcome, Status, answered};
use cmd_reading::{WordsStop, texts_of};
use show_trace::{TraceNames, trace_files};
use show_why::{WhyNames, why_files};
use std::alloc::Global;
use std::thread::Threads;
use vm_field::{Bytes, Memory};
use vm_io::{Gate, Shelf};

/// Does the work of the command that the words ask for, and leaves its lines to be printed.
pub fn show<R: Threads + Sync, F: Shelf, G: Gate>(
    rt: &R,
    alloc: Global,
    seed: Seed,
    words: &[Vec<u8>],
    shelf: &mut F,
    gate: &G,
) -> Outcome
    ensures { EndsIn (steps_of (shown (texts words.now))) result (F.state shelf.old) (F.state shelf.new) }
{
    let Some((name, rest)) = command_named(words) else {
        return usage(alloc);
    };
    let texts = match texts_of(alloc, rest) {
        Ok(texts) => texts,
        Err(WordsStop::Usage) => return usage(alloc),
        Err(WordsStop::Memory) => return Outcome::Memory,
    };
    match named_command(alloc, name, texts.as_slice()) {
        Ok(command) => work_of(rt, alloc, seed, command, shelf, gate),
        Err(Memory::Memory) => Outcome::Memory,
    }
}

// What the words behind the name ask for.
fn named_command<'a>(
    alloc: Global,
    name: CommandName,
    words: &'a [&'a str],
) -> Result<Command<'a>, Memory>
    requires text { AllText (map (λ s. s.now) words.now) }
    ensures asks { IfOk result (λ c. asks c ≡ asked_as name (map (λ s. s.now) words.entry.now)) }
    ensures named { IfOk result NamesFiles }
{
    match name {
        CommandName::Show => show_command(alloc, words),
        CommandName::Explain => command_of(alloc, Form::Explain, words),
        CommandName::Evidence => command_of(alloc, Form::Evidence, words),
        CommandName::Trace => command_of(alloc, Form::Trace, words),
        CommandName::Why => command_of(alloc, Form::Why, words),
    }
}

// Behind `show` stands a table file alone, or one of its tables behind it.
fn show_command<'a>(alloc: Global, words: &'a [&'a str]) -> Result<Command<'a>, Memory>
    requires text { AllText (map (λ s. s.now) words.now) }
    ensures asks { IfOk result (λ c. asks c ≡ show_words (map (λ s. s.now) words.entry.now)) }
    ensures named { IfOk result NamesFiles }
{
    match command_of(alloc, Form::Run, words)? {
        Command::Nothing => table_command(alloc, words),
        command => Ok(command),
    }
}

// Behind the table stands nothing, the number of a row, or those of the first and the last one.
fn table_command<'a>(alloc: Global, words: &'a [&'a str]) -> Result<Command<'a>, Memory>
    requires text { AllText (map (λ s. s.now) words.now) }
    ensures asks { IfOk result (λ c. asks c ≡ table_words (map (λ s. s.now) words.entry.now)) }
    ensures named { IfOk result NamesFiles }
{
    match command_of(alloc, Form::AllRows, words)? {
        Command::Nothing => match command_of(alloc, Form::OneRow, words)? {
            Command::Nothing => command_of(alloc, Form::Rows, words),
            command => Ok(command),
        },
        command => Ok(command),
    }
}

// Does the work of a command.
#[tactic(auto, using(cmd_kit::proofs::ServingLemmas::usage_ends))]
fn work_of<R: Threads + Sync, F: Shelf, G: Gate>(
    rt: &R,
    alloc: Global,
    seed: Seed,
    command: Command<'_>,
    shelf: &mut F,
    gate: &G,
) -> Outcome
    requires { NamesFiles command }
    ensures { EndsIn (steps_of (asks command.entry)) result (F.state shelf.old) (F.state shelf.new) }
{
    match command {
        Command::Run { table } => tell_run(alloc, shelf, table),
        Command::Rows {
            table,
            name,
            first,
            last,
        } => tell_rows(alloc, shelf, table, name, first, last),
        Command::Explain {
            params,
            table,
            statement,
        } => {
            let names = ExplainNames {
                params,
                table,
                statement,
            };
            explain_files(rt, alloc, seed, shelf, gate, names)
        }
        Command::Evidence { file } => tell_evidence(alloc, shelf, file),
        Command::Trace {
            params,
            source,
            inputs,
            kernel,
            limit,
        } => {
            let names = TraceNames {
                params,
                source,
                inputs,
                kernel,
                limit,
            };
            trace_files(alloc, shelf, names)
        }
        Command::Why { source, kernel } => { why_files(alloc, shelf, WhyNames { source, kernel }) }
        Command::Nothing => usage(alloc),
    }
}

fn usage(alloc: Global) -> Outcome
    ensures { SaysStatus result Status.Usage (codes "usage\n") }
{
    answered(Status::Usage, Bytes::copied(alloc, b"usage\n"))
}
