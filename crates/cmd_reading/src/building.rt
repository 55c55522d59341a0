ghost use Rattle.std.specs.Prelude.{◌≡◌, false, map, IfOk, IsErrOf};
ghost use Rattle.clap.specs.Words.{app_of, found_of, rule_of};
ghost use Rattle.cmd_reading.specs.Form.{form_of, IsForm};
ghost use Rattle.cmd_reading.specs.FormApp.{bare_app, form_app, option_rule, place_rule, with_rules, IsFaulty, IsFound};

use clap::error::ErrorKind;
use clap::{Arg, ArgMatches, Command};
use std::alloc::{AllocError, Global};

/// Why words give no texts.
#[derive(Clone, Copy, Debug, PartialEq, Eq)]
pub enum WordsStop {
    /// The words are not meant so.
    Usage,
    /// Memory was refused.
    Memory,
}

// A text at a place of its own.
fn place<'a>(alloc: Global, id: &'a str) -> Arg<'a>
    ensures rule { rule_of result ≡ place_rule id.entry.now }
    ensures own_level { result.global ≡ false }
{
    Arg::new(alloc, id).required(true)
}

// An option that takes one text.
fn text_option<'a>(alloc: Global, id: &'a str, required: bool) -> Arg<'a>
    ensures rule { rule_of result ≡ option_rule required id.entry.now }
    ensures own_level { result.global ≡ false }
{
    Arg::new(alloc, id).long(id).required(required)
}

// A command with no argument yet: none of `clap`'s own, and no program's name before the words.
fn bare_command<'a>(alloc: Global) -> Command<'a>
    ensures { app_of result ≡ bare_app }
{
    Command::new(alloc, "words")
        .no_binary_name(true)
        .disable_help_flag(true)
        .disable_version_flag(true)
}

fn with_places<'a>(
    alloc: Global,
    mut command: Command<'a>,
    ids: &'a [&'a str],
) -> Result<Command<'a>, AllocError>
    ensures { IfOk result (λ c. app_of c ≡ with_rules (app_of command.entry) (map place_rule (map (λ s. s.now) ids.entry.now))) }
{
    for id in ids {
        command = command.arg(place(alloc, id))?;
    }
    Ok(command)
}

fn with_options<'a>(
    alloc: Global,
    mut command: Command<'a>,
    ids: &'a [&'a str],
    required: bool,
) -> Result<Command<'a>, AllocError>
    ensures { IfOk result (λ c. app_of c ≡ with_rules (app_of command.entry) (map (option_rule required) (map (λ s. s.now) ids.entry.now))) }
{
    for id in ids {
        command = command.arg(text_option(alloc, id, required))?;
    }
    Ok(command)
}

// The command of a form.
fn form_command<'a>(
    alloc: Global,
    places: &'a [&'a str],
    needed: &'a [&'a str],
    free: &'a [&'a str],
) -> Result<Command<'a>, AllocError>
    ensures { IfOk result (λ c. app_of c ≡ form_app (form_of places.entry.now needed.entry.now free.entry.now)) }
{
    let command = with_places(alloc, bare_command(alloc), places)?;
    let command = with_options(alloc, command, needed, true)?;
    with_options(alloc, command, free, false)
}

/// What `clap` finds in words. `Usage` says that it finds a fault.
pub fn form_matches<'a>(
    alloc: Global,
    places: &'a [&'a str],
    needed: &'a [&'a str],
    free: &'a [&'a str],
    words: &'a [&'a str],
) -> Result<ArgMatches<'a>, WordsStop>
    requires names { IsForm (form_of places.now needed.now free.now) }
    ensures ok { IfOk result (λ m. IsFound (form_of places.entry.now needed.entry.now free.entry.now)
        (map (λ s. s.now) words.entry.now) (found_of m)) }
    ensures usage { IsErrOf result WordsStop.Usage
        → IsFaulty (form_of places.entry.now needed.entry.now free.entry.now) (map (λ s. s.now) words.entry.now) }
{
    let Ok(command) = form_command(alloc, places, needed, free) else {
        return Err(WordsStop::Memory);
    };
    match command.try_get_matches_from(words) {
        Ok(matches) => Ok(matches),
        Err(error) => Err(if error.kind() == ErrorKind::OutOfMemory {
            WordsStop::Memory
        } else {
            WordsStop::Usage
        }),
    }
}
