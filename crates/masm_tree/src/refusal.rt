ghost use Rattle.std.specs.Prelude.{◌≡◌};
ghost use Rattle.masm_tree.specs.declared.refusal.Stop.TheVariants as stops;
ghost use Rattle.masm_tree.specs.Causes.{text_of_cause, is_early, stop_of};

use masm_reading::InstrError;
use std::alloc::{AllocError, AllocFailed};
use std::fmt;
use thiserror::Error;

/// Why a token is refused (docs/ASSEMBLY.md), in the order in which the causes of one token are
/// tested.
#[derive(Clone, Copy, Debug, PartialEq, Eq)]
pub enum Cause {
    /// A kernel has no `begin`, `call`, `syscall`, `procref` or `dynexec`.
    KernelBody,
    /// The instruction is one that this machine does not have.
    Unsupported,
    /// There is no instruction of that name.
    UnknownInstruction,
    /// The token does not fit here, or its parameters have the wrong count or form, or it names a
    /// constant that is not defined before it; or the source ends early.
    Syntax,
    /// A number is out of its range.
    NumberRange,
    /// A count of locals is above 65,535, or a local's number is not below the count.
    LocalsRange,
    /// A body is repeated at least once and at most 10,000 times.
    RepeatRange,
    /// An `if.true`, `while.true` or `repeat` stands inside 256 others.
    TooDeep,
}

/// The cause's name, as it is printed.
pub fn cause_text(cause: Cause) -> &'static str
    ensures { result.now ≡ text_of_cause cause }
{
    match cause {
        Cause::KernelBody => "KernelBody",
        Cause::Unsupported => "Unsupported",
        Cause::UnknownInstruction => "UnknownInstruction",
        Cause::Syntax => "Syntax",
        Cause::NumberRange => "NumberRange",
        Cause::LocalsRange => "LocalsRange",
        Cause::RepeatRange => "RepeatRange",
        Cause::TooDeep => "TooDeep",
    }
}

impl fmt::Display for Cause {
    ghost use Rattle.std.specs.Prelude.{Some};
    ghost use Rattle.masm_tree.specs.Causes.{text_of_cause};

    ghost output = { λ cause. Some (text_of_cause cause) };

    fn fmt<W: fmt::Write>(&self, f: &mut fmt::Formatter<W>) -> fmt::Result {
        let name = cause_text(*self);
        write!(f, "{name}")
    }
}

impl Cause {
    /// Whether the cause stands before Syntax.
    pub fn is_early(self) -> bool
        ensures { result ≡ is_early self }
    {
        matches!(
            self,
            Cause::KernelBody | Cause::Unsupported | Cause::UnknownInstruction
        )
    }
}

/// Why a token has no meaning by itself.
#[derive(Clone, Copy, Debug, PartialEq, Eq, Error)]
pub enum Stop {
    #[error("{0}")]
    Refused(Cause),
    #[error("out of memory")]
    Memory,
}

impl From<AllocError> for Stop {
    ghost from_gives = { λ _ e. e ≡ stops.Memory };

    fn from(_error: AllocError) -> Stop {
        Stop::Memory
    }
}

impl<T: Drop> From<AllocFailed<T>> for Stop {
    ghost from_gives = { λ _ e. e ≡ stops.Memory };

    fn from(_error: AllocFailed<T>) -> Stop {
        Stop::Memory
    }
}

impl From<vm_field::Memory> for Stop {
    ghost from_gives = { λ _ e. e ≡ stops.Memory };

    fn from(_error: vm_field::Memory) -> Stop {
        Stop::Memory
    }
}

impl From<InstrError> for Stop {
    ghost from_gives = { λ error e. e ≡ stop_of error };

    fn from(error: InstrError) -> Stop {
        match error {
            InstrError::Unsupported => Stop::Refused(Cause::Unsupported),
            InstrError::UnknownInstruction => Stop::Refused(Cause::UnknownInstruction),
            InstrError::Syntax => Stop::Refused(Cause::Syntax),
            InstrError::NumberRange => Stop::Refused(Cause::NumberRange),
            InstrError::Memory => Stop::Memory,
        }
    }
}
