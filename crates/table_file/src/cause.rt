ghost use Rattle.std.specs.Prelude.{◌≡◌};
ghost use Rattle.table_file.specs.Causes.{text_of_cause};
ghost use Rattle.table_file.specs.declared.cause.FileError.TheVariants.{Bad};

use std::fmt;
use thiserror::Error;
use vm_field::Memory;

/// Why bytes are no table file.
#[derive(Clone, Copy, Debug, PartialEq, Eq)]
pub enum FileCause {
    /// The bytes end inside a field or before it.
    Ended,
    /// The first four bytes are not `MDTB`.
    Magic,
    /// The version is neither 1 nor 2.
    Version,
    /// A table may not have so many rows, in a file of this version.
    Count,
    /// A number is no element: it is 2^64 - 2^32 + 1 or more.
    Element,
    /// Bytes stand behind the last element.
    Extra,
}

/// The cause's name, as it is printed.
pub fn cause_text(cause: FileCause) -> &'static str
    ensures { result.now ≡ text_of_cause cause }
{
    match cause {
        FileCause::Ended => "Ended",
        FileCause::Magic => "Magic",
        FileCause::Version => "Version",
        FileCause::Count => "Count",
        FileCause::Element => "Element",
        FileCause::Extra => "Extra",
    }
}

impl fmt::Display for FileCause {
    ghost use Rattle.std.specs.Prelude.{Some};
    ghost use Rattle.table_file.specs.Causes.{text_of_cause};

    ghost output = { λ cause. Some (text_of_cause cause) };

    fn fmt<W: fmt::Write>(&self, f: &mut fmt::Formatter<W>) -> fmt::Result {
        let name = cause_text(*self);
        write!(f, "{name}")
    }
}

/// Why bytes give no trace.
#[derive(Clone, Copy, Debug, PartialEq, Eq, Error)]
pub enum FileError {
    /// They are no table file: the field that begins at this byte decides.
    #[error("{cause} at byte {offset}")]
    Bad { offset: u64, cause: FileCause },
    /// Memory was refused.
    #[error("out of memory")]
    Memory,
}

impl From<Memory> for FileError {
    ghost use Rattle.std.specs.Prelude.{◌≡◌};
    ghost use Rattle.table_file.specs.declared.cause.FileError.TheVariants.{Memory};

    ghost from_gives = { λ _ e. e ≡ Memory };

    fn from(_error: Memory) -> FileError {
        FileError::Memory
    }
}

// The refusal of the field that begins at a place.
pub(crate) fn bad(at: usize, cause: FileCause) -> FileError
    ensures { result ≡ Bad at cause }
{
    FileError::Bad {
        offset: at as u64,
        cause,
    }
}
