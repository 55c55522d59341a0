ghost use Rattle.std.specs.Prelude.{◌≡◌};
ghost use Rattle.masm_parse.specs.declared.refusal.ParseError.TheVariants.{Memory};

use masm_tree::Cause;
use std::alloc::{AllocError, AllocFailed};
use thiserror::Error;

/// Why a source has no syntax tree.
#[derive(Clone, Copy, Debug, PartialEq, Eq, Error)]
pub enum ParseError {
    /// The first token that is refused, or the place one past the end of a source that ends early.
    #[error("{line}:{column}: {cause}")]
    Bad {
        /// The line, counted from 1.
        line: u32,
        /// The column, counted in bytes from 1.
        column: u32,
        /// The first cause that the token has.
        cause: Cause,
    },
    /// The system gave no memory.
    #[error("out of memory")]
    Memory,
}

impl From<AllocError> for ParseError {
    ghost from_gives = { λ _ e. e ≡ Memory };

    fn from(_error: AllocError) -> ParseError {
        ParseError::Memory
    }
}

impl<T: Drop> From<AllocFailed<T>> for ParseError {
    ghost from_gives = { λ _ e. e ≡ Memory };

    fn from(_error: AllocFailed<T>) -> ParseError {
        ParseError::Memory
    }
}

impl From<vm_field::Memory> for ParseError {
    ghost from_gives = { λ _ e. e ≡ Memory };

    fn from(_error: vm_field::Memory) -> ParseError {
        ParseError::Memory
    }
}
