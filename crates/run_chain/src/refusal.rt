ghost use Rattle.std.specs.Prelude.{◌≡◌, ◌≤◌};
ghost use Rattle.run_chain.specs.Causes.{text_of_cause};
ghost use Rattle.run_chain.specs.declared.refusal.LinkError.TheVariants.{Bad};

use std::alloc::{AllocError, AllocFailed};
use std::fmt;
use thiserror::Error;

/// What is wrong with a line of a list, in the order in which the causes are tested.
#[derive(Clone, Copy, Debug, PartialEq, Eq)]
pub enum LinkCause {
    /// There is no line, which is told of line 1, or there is a 65th.
    Count,
    /// The line is not so many names with one space between them, or no line feed ends it.
    Line,
    /// A file that is written has another name of the words or of the lines up to this one.
    Output,
}

/// The cause's name, as it is printed.
pub fn cause_text(cause: LinkCause) -> &'static str
    ensures { result.now ≡ text_of_cause cause }
{
    match cause {
        LinkCause::Count => "Count",
        LinkCause::Line => "Line",
        LinkCause::Output => "Output",
    }
}

impl fmt::Display for LinkCause {
    ghost use Rattle.std.specs.Prelude.{Some};
    ghost use Rattle.run_chain.specs.Causes.{text_of_cause};

    ghost output = { λ cause. Some (text_of_cause cause) };

    fn fmt<W: fmt::Write>(&self, f: &mut fmt::Formatter<W>) -> fmt::Result {
        let name = cause_text(*self);
        write!(f, "{name}")
    }
}

/// Why bytes give no links.
#[derive(Clone, Copy, Debug, PartialEq, Eq, Error)]
pub enum LinkError {
    /// They are no list: the first line that is wrong, from 1, and the first of its causes.
    #[error("{cause} at line {line}")]
    Bad { line: u32, cause: LinkCause },
    /// Memory was refused.
    #[error("out of memory")]
    Memory,
}

impl From<AllocError> for LinkError {
    ghost use Rattle.std.specs.Prelude.{◌≡◌};
    ghost use Rattle.run_chain.specs.declared.refusal.LinkError.TheVariants.{Memory};

    ghost from_gives = { λ _ e. e ≡ Memory };

    fn from(_error: AllocError) -> LinkError {
        LinkError::Memory
    }
}

impl<T: Drop> From<AllocFailed<T>> for LinkError {
    ghost use Rattle.std.specs.Prelude.{◌≡◌};
    ghost use Rattle.run_chain.specs.declared.refusal.LinkError.TheVariants.{Memory};

    ghost from_gives = { λ _ e. e ≡ Memory };

    fn from(_error: AllocFailed<T>) -> LinkError {
        LinkError::Memory
    }
}
