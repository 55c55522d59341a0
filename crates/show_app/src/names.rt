//! The commands by their names.
ghost use Rattle.std.specs.Prelude.{◌≡◌, MatchOption};
ghost use Rattle.cmd_words.specs.Words.{texts};
ghost use Rattle.show_app.specs.Named.{asked_as};
ghost use Rattle.show_app.specs.Showing.{nothing, shown};

/// A command by its name.
#[derive(Clone, Copy)]
pub enum CommandName {
    Show,
    Explain,
    Evidence,
    Trace,
    Why,
}

/// The command that the first word names, and the words behind it. Names are compared as bytes.
#[tactic(auto, unfolding(crate::specs::Showing::shown))]
pub fn command_named(words: &[Vec<u8>]) -> Option<(CommandName, &[Vec<u8>])>
    ensures { MatchOption result (shown (texts words.entry.now) ≡ nothing)
        (λ named. shown (texts words.entry.now) ≡ asked_as named.0 (texts named.1.now)) }
{
    match words {
        [name, rest @ ..] if name.as_slice() == b"show".as_slice() => {
            Some((CommandName::Show, rest))
        }
        [name, rest @ ..] if name.as_slice() == b"explain".as_slice() => {
            Some((CommandName::Explain, rest))
        }
        [name, rest @ ..] if name.as_slice() == b"evidence".as_slice() => {
            Some((CommandName::Evidence, rest))
        }
        [name, rest @ ..] if name.as_slice() == b"trace".as_slice() => {
            Some((CommandName::Trace, rest))
        }
        [name, rest @ ..] if name.as_slice() == b"why".as_slice() => Some((CommandName::Why, rest)),
        _ => None,
    }
}
