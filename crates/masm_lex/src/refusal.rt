ghost use Rattle.std.specs.Prelude.{◌≡◌};
ghost use Rattle.masm_lex.specs.declared.refusal.LexError.TheVariants.{Memory};

use std::alloc::{AllocError, AllocFailed};
use thiserror::Error;

/// Why a source has no tokens.
#[derive(Clone, Copy, Debug, PartialEq, Eq, Error)]
pub enum LexError {
    /// The first byte outside comments that is neither a blank nor a byte of a token stands here.
    #[error("{line}:{column}: no byte of a token")]
    Bad {
        /// The byte's line, counted from 1.
        line: u32,
        /// The byte's column, counted in bytes from 1.
        column: u32,
    },
    /// The system gave no memory.
    #[error("out of memory")]
    Memory,
}

impl From<AllocError> for LexError {
    ghost from_gives = { λ _ e. e ≡ Memory };

    fn from(_error: AllocError) -> LexError {
        LexError::Memory
    }
}

impl<T: Drop> From<AllocFailed<T>> for LexError {
    ghost from_gives = { λ _ e. e ≡ Memory };

    fn from(_error: AllocFailed<T>) -> LexError {
        LexError::Memory
    }
}
