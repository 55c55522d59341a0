//! The commands by their names, and the form of the words behind each.
ghost use Rattle.std.specs.Prelude.{◌≡◌, MatchOption};
ghost use Rattle.cmd_words.specs.Words.{texts};
ghost use Rattle.cmd_reading.specs.Form.{form_of};
ghost use Rattle.cmd_kit.specs.Asked.{asked, nothing};
ghost use Rattle.miden_app.specs.Forms.{asked_by, form_named};

/// A command of the program.
#[derive(Clone, Copy)]
pub enum CommandName {
    Check,
    Hash,
    Assemble,
    Run,
    Make,
    Chain,
    Runs,
    Member,
}

/// The names of what a command takes, as the reader of words wants them: of its places, of the
/// options that must stand and of those that may.
#[derive(Clone, Copy)]
pub struct CommandForm {
    pub places: &'static [&'static str],
    pub needed: &'static [&'static str],
    pub free: &'static [&'static str],
}

/// The command that the first word names, and the words behind it. Names are compared as bytes.
#[tactic(auto, unfolding(cmd_kit::specs::Asked::asked))]
pub fn command_named(words: &[Vec<u8>]) -> Option<(CommandName, &[Vec<u8>])>
    ensures { MatchOption result (asked (texts words.entry.now) ≡ nothing) (λ named. asked (texts words.entry.now) ≡ asked_by named.0 (texts named.1.now)) }
{
    match words {
        [name, rest @ ..] if name.as_slice() == b"check".as_slice() => {
            Some((CommandName::Check, rest))
        }
        [name, rest @ ..] if name.as_slice() == b"hash".as_slice() => {
            Some((CommandName::Hash, rest))
        }
        [name, rest @ ..] if name.as_slice() == b"assemble".as_slice() => {
            Some((CommandName::Assemble, rest))
        }
        [name, rest @ ..] if name.as_slice() == b"run".as_slice() => Some((CommandName::Run, rest)),
        [name, rest @ ..] if name.as_slice() == b"make".as_slice() => {
            Some((CommandName::Make, rest))
        }
        [name, rest @ ..] if name.as_slice() == b"chain".as_slice() => {
            Some((CommandName::Chain, rest))
        }
        [name, rest @ ..] if name.as_slice() == b"runs".as_slice() => {
            Some((CommandName::Runs, rest))
        }
        [name, rest @ ..] if name.as_slice() == b"member".as_slice() => {
            Some((CommandName::Member, rest))
        }
        _ => None,
    }
}

/// What the command takes.
pub fn form_of_command(name: CommandName) -> CommandForm
    ensures { form_of result.places.now result.needed.now result.free.now ≡ form_named name }
{
    match name {
        CommandName::Check => CommandForm {
            places: &["params", "table", "statement"],
            needed: &["evidence"],
            free: &["pieces", "source", "kernel"],
        },
        CommandName::Hash => CommandForm {
            places: &["params", "numbers"],
            needed: &[],
            free: &[],
        },
        CommandName::Assemble => CommandForm {
            places: &["params", "source"],
            needed: &[],
            free: &["kernel"],
        },
        CommandName::Run => CommandForm {
            places: &["params", "source", "inputs"],
            needed: &["out", "statement"],
            free: &["kernel", "limit"],
        },
        CommandName::Make => CommandForm {
            places: &["params", "turns"],
            needed: &["source", "inputs"],
            free: &[],
        },
        CommandName::Chain => CommandForm {
            places: &["params", "list"],
            needed: &["evidence"],
            free: &["pieces"],
        },
        CommandName::Runs => CommandForm {
            places: &["params", "list"],
            needed: &[],
            free: &[],
        },
        CommandName::Member => CommandForm {
            places: &["params", "table", "statement"],
            needed: &["depth", "evidence"],
            free: &["pieces"],
        },
    }
}
