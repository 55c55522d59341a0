ghost use Rattle.std.specs.Prelude.{◌≡◌};
ghost use Rattle.masm_reading.specs.declared.refusal.InstrError.TheVariants.{Memory};

use std::alloc::{AllocError, AllocFailed};
use thiserror::Error;

/// Why a token is no instruction, in the order in which the causes are tested.
#[derive(Clone, Copy, Debug, PartialEq, Eq, Error)]
pub enum InstrError {
    /// The instruction is one that this machine does not have.
    #[error("unsupported instruction")]
    Unsupported,
    /// There is no instruction of that name.
    #[error("unknown instruction")]
    UnknownInstruction,
    /// The count or the form of the parameters is wrong, or a constant is not defined.
    #[error("wrong parameters")]
    Syntax,
    /// A number is out of its range.
    #[error("number out of range")]
    NumberRange,
    /// The system gave no memory.
    #[error("out of memory")]
    Memory,
}

impl From<AllocError> for InstrError {
    ghost from_gives = { λ _ e. e ≡ Memory };

    fn from(_error: AllocError) -> InstrError {
        InstrError::Memory
    }
}

impl<T: Drop> From<AllocFailed<T>> for InstrError {
    ghost from_gives = { λ _ e. e ≡ Memory };

    fn from(_error: AllocFailed<T>) -> InstrError {
        InstrError::Memory
    }
}
