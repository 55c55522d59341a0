ghost use Rattle.std.specs.Prelude.{◌≡◌};
ghost use Rattle.statement.specs.Causes.{text_of_cause};
ghost use Rattle.statement.specs.declared.refusal.TextError.TheVariants.{Memory};

use std::alloc::{AllocError, AllocFailed};
use std::fmt;
use thiserror::Error;

/// Why a text is refused (docs/FORMATS.md, "Inputs" and "Statements"), in the order in which the
/// causes are tested, each over the whole text.
#[derive(Clone, Copy, Debug, PartialEq, Eq)]
pub enum TextCause {
    /// The bytes are no UTF-8, or no JSON value.
    NotJson,
    /// The value is no object of exactly the keys, or one of them has a value of another kind.
    Shape,
    /// A number is not whole, or is negative, or is 2^64 - 2^32 + 1 or more.
    Element,
    /// A digest is no 64 hexadecimal digits of four elements.
    Digest,
    /// A list is longer, or shorter, than is allowed.
    Count,
    /// A digest stands twice in a list.
    Repeated,
}

/// The cause's name, as it is printed.
pub fn cause_text(cause: TextCause) -> &'static str
    ensures { result.now ≡ text_of_cause cause }
{
    match cause {
        TextCause::NotJson => "NotJson",
        TextCause::Shape => "Shape",
        TextCause::Element => "Element",
        TextCause::Digest => "Digest",
        TextCause::Count => "Count",
        TextCause::Repeated => "Repeated",
    }
}

impl fmt::Display for TextCause {
    ghost use Rattle.std.specs.Prelude.{Some};
    ghost use Rattle.statement.specs.Causes.{text_of_cause};

    ghost output = { λ cause. Some (text_of_cause cause) };

    fn fmt<W: fmt::Write>(&self, f: &mut fmt::Formatter<W>) -> fmt::Result {
        let name = cause_text(*self);
        write!(f, "{name}")
    }
}

/// Why nothing was read of a text.
#[derive(Clone, Copy, Debug, PartialEq, Eq, Error)]
pub enum TextError {
    /// The text is refused for the first cause that it has.
    #[error("{0}")]
    Bad(TextCause),
    /// The system gave no memory.
    #[error("out of memory")]
    Memory,
}

impl From<AllocError> for TextError {
    ghost from_gives = { λ _ e. e ≡ Memory };

    fn from(_error: AllocError) -> TextError {
        TextError::Memory
    }
}

impl<T: Drop> From<AllocFailed<T>> for TextError {
    ghost from_gives = { λ _ e. e ≡ Memory };

    fn from(_error: AllocFailed<T>) -> TextError {
        TextError::Memory
    }
}

impl From<vm_field::Memory> for TextError {
    ghost from_gives = { λ _ e. e ≡ Memory };

    fn from(_error: vm_field::Memory) -> TextError {
        TextError::Memory
    }
}
