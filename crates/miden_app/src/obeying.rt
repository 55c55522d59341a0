//! The work of the command that words ask for.
ghost use Rattle.std.specs.Prelude.{codes};
ghost use Rattle.cmd_words.specs.Words.{texts};
ghost use Rattle.cmd_kit.specs.Asked.{asked};
ghost use Rattle.cmd_kit.specs.Commands.{steps_of};
ghost use Rattle.cmd_kit.specs.Outcomes.{EndsIn, SaysStatus};
ghost use Rattle.miden_app.specs.Asking.{asks, NamesFiles};

use crate::hash::hash_files;
use crate::names::command_named;
use crate::words::{Command, command_of};
use cmd_assemble::assemble_files;
use cmd_check::{
    ChainNames, CheckNames, Seed, chain_files, check_files, check_member_files, check_source_files,
};
use cmd_kit::{Outcome, Status, answered};
use cmd_make::make_files;
use cmd_reading::{WordsStop, texts_of};
use cmd_run::{RunOptions, run_linked_files, run_source_files};
use std::alloc::Global;
use std::thread::Threads;
use vm_field::{Bytes, Memory};
use vm_io::{Gate, Shelf};

/// Does the work of the command that the words ask for, and leaves its line to be printed. Where the
/// first word names no command, no memory is taken but for that line.
pub fn obey<R: Threads + Sync, F: Shelf, G: Gate>(
    rt: &R,
    alloc: Global,
    seed: Seed,
    words: &[Vec<u8>],
    shelf: &mut F,
    gate: &G,
) -> Outcome
    ensures { EndsIn (steps_of (asked (texts words.now))) result (F.state shelf.old) (F.state shelf.new) }
{
    let Some((name, rest)) = command_named(words) else {
        return usage(alloc);
    };
    let texts = match texts_of(alloc, rest) {
        Ok(texts) => texts,
        Err(WordsStop::Usage) => return usage(alloc),
        Err(WordsStop::Memory) => return Outcome::Memory,
    };
    match command_of(alloc, name, texts.as_slice()) {
        Ok(command) => work_of(rt, alloc, seed, command, shelf, gate),
        Err(Memory::Memory) => Outcome::Memory,
    }
}

// Does the work of a command.
#[tactic(auto, using(cmd_kit::proofs::ServingLemmas::usage_ends))]
fn work_of<R: Threads + Sync, F: Shelf, G: Gate>(
    rt: &R,
    alloc: Global,
    seed: Seed,
    command: Command<'_>,
    shelf: &mut F,
    gate: &G,
) -> Outcome
    requires { NamesFiles command }
    ensures { EndsIn (steps_of (asks command.entry)) result (F.state shelf.old) (F.state shelf.new) }
{
    match command {
        Command::Hash { params, numbers } => hash_files(alloc, shelf, params, numbers),
        Command::Assemble {
            params,
            source,
            kernel,
        } => assemble_files(alloc, shelf, params, source, kernel),
        Command::Run {
            params,
            source,
            inputs,
            outputs,
            kernel,
            limit,
        } => run_source_files(
            rt,
            alloc,
            shelf,
            gate,
            params,
            source,
            RunOptions {
                inputs,
                outputs,
                kernel,
                limit,
            },
        ),
        Command::Check {
            params,
            table,
            statement,
            evidence,
            pieces,
        } => check_files(
            rt,
            alloc,
            seed,
            shelf,
            gate,
            params,
            CheckNames {
                table,
                statement,
                evidence,
                pieces,
            },
        ),
        Command::CheckSource {
            params,
            table,
            statement,
            evidence,
            source,
            kernel,
            pieces,
        } => check_source_files(
            rt,
            alloc,
            seed,
            shelf,
            gate,
            params,
            CheckNames {
                table,
                statement,
                evidence,
                pieces,
            },
            source,
            kernel,
        ),
        Command::Make {
            params,
            turns,
            names,
        } => make_files(rt, alloc, seed, shelf, gate, params, turns, names),
        Command::Chain {
            params,
            list,
            evidence,
            pieces,
        } => chain_files(
            rt,
            alloc,
            seed,
            shelf,
            gate,
            params,
            ChainNames {
                list,
                evidence,
                pieces,
            },
        ),
        Command::Runs { params, list } => { run_linked_files(rt, alloc, shelf, gate, params, list) }
        Command::Member {
            params,
            table,
            statement,
            evidence,
            depth,
            pieces,
        } => check_member_files(
            rt,
            alloc,
            seed,
            shelf,
            gate,
            params,
            CheckNames {
                table,
                statement,
                evidence,
                pieces,
            },
            depth,
        ),
        Command::Nothing => usage(alloc),
    }
}

fn usage(alloc: Global) -> Outcome
    ensures { SaysStatus result Status.Usage (codes "usage\n") }
{
    answered(Status::Usage, Bytes::copied(alloc, b"usage\n"))
}
