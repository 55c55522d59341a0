ghost use Rattle.std.specs.Prelude.{◌≡◌};
ghost use Rattle.masm_link.specs.declared.refusal.AsmError.TheVariants as errors;
ghost use Rattle.masm_link.specs.Assembling.{lex_refusal, parse_refusal, link_refusal};
ghost use Rattle.masm_link.specs.Causes.{text_of_cause, parse_cause, link_cause};

use masm_lex::LexError;
use masm_names::{LinkCause, Refusal};
use masm_parse::ParseError;
use masm_tree::Cause;
use std::alloc::{AllocError, AllocFailed};
use std::fmt;
use thiserror::Error;

/// Why a source is refused (docs/ASSEMBLY.md).
#[derive(Clone, Copy, Debug, PartialEq, Eq)]
pub enum AsmCause {
    /// A byte outside comments is neither a blank nor one of a token.
    Lexical,
    /// A kernel has no `begin`, `call`, `syscall`, `procref` or `dynexec`.
    KernelBody,
    /// The instruction is one that this machine does not have.
    Unsupported,
    /// There is no instruction of that name.
    UnknownInstruction,
    /// The token does not fit here, or its parameters have the wrong count or form, or it names a
    /// constant that is not defined before it; or the source ends early.
    Syntax,
    /// A number is out of its range.
    NumberRange,
    /// A count of locals is above 65,535, or a local's number is not below the count.
    LocalsRange,
    /// A body is repeated at least once and at most 10,000 times.
    RepeatRange,
    /// An `if.true`, `while.true` or `repeat` stands inside 256 others; or more than 1,024 blocks
    /// stand on one path of a tree.
    TooDeep,
    /// A constant or a procedure of that name was defined before.
    Duplicate,
    /// 255 procedures are exported already.
    TooManyExports,
    /// Neither the source nor its library has a procedure of that name.
    UnknownProcedure,
    /// The kernel exports no procedure of that name.
    NotInKernel,
    /// The procedure that is used reaches the one that uses it, or the dynexec stands in a procedure that
    /// is reached from one that a procref names.
    Recursive,
    /// The tree has more than 524,288 operations.
    TooManyOps,
}

/// The cause's name, as it is printed.
pub fn cause_text(cause: AsmCause) -> &'static str
    ensures { result.now ≡ text_of_cause cause }
{
    match cause {
        AsmCause::Lexical => "Lexical",
        AsmCause::KernelBody => "KernelBody",
        AsmCause::Unsupported => "Unsupported",
        AsmCause::UnknownInstruction => "UnknownInstruction",
        AsmCause::Syntax => "Syntax",
        AsmCause::NumberRange => "NumberRange",
        AsmCause::LocalsRange => "LocalsRange",
        AsmCause::RepeatRange => "RepeatRange",
        AsmCause::TooDeep => "TooDeep",
        AsmCause::Duplicate => "Duplicate",
        AsmCause::TooManyExports => "TooManyExports",
        AsmCause::UnknownProcedure => "UnknownProcedure",
        AsmCause::NotInKernel => "NotInKernel",
        AsmCause::Recursive => "Recursive",
        AsmCause::TooManyOps => "TooManyOps",
    }
}

impl fmt::Display for AsmCause {
    ghost use Rattle.std.specs.Prelude.{Some};
    ghost use Rattle.masm_link.specs.Causes.{text_of_cause};

    ghost output = { λ cause. Some (text_of_cause cause) };

    fn fmt<W: fmt::Write>(&self, f: &mut fmt::Formatter<W>) -> fmt::Result {
        let name = cause_text(*self);
        write!(f, "{name}")
    }
}

/// Why there is no program of a source.
#[derive(Clone, Copy, Debug, PartialEq, Eq, Error)]
pub enum AsmError {
    /// The source or its kernel is refused. The first place with a refusal is named, and there the
    /// first cause.
    #[error("{line}:{column}: {cause}")]
    Bad {
        /// Whether the place is one of the kernel.
        in_kernel: bool,
        /// The line, counted from 1.
        line: u32,
        /// The column, counted in bytes from 1.
        column: u32,
        /// Why it is refused.
        cause: AsmCause,
    },
    /// The system gave no memory.
    #[error("out of memory")]
    Memory,
}

impl From<AllocError> for AsmError {
    ghost from_gives = { λ _ e. e ≡ errors.Memory };

    fn from(_error: AllocError) -> AsmError {
        AsmError::Memory
    }
}

impl<T: Drop> From<AllocFailed<T>> for AsmError {
    ghost from_gives = { λ _ e. e ≡ errors.Memory };

    fn from(_error: AllocFailed<T>) -> AsmError {
        AsmError::Memory
    }
}

impl From<vm_field::Memory> for AsmError {
    ghost from_gives = { λ _ e. e ≡ errors.Memory };

    fn from(_error: vm_field::Memory) -> AsmError {
        AsmError::Memory
    }
}

fn parse_cause(cause: Cause) -> AsmCause
    ensures { result ≡ parse_cause cause }
{
    match cause {
        Cause::KernelBody => AsmCause::KernelBody,
        Cause::Unsupported => AsmCause::Unsupported,
        Cause::UnknownInstruction => AsmCause::UnknownInstruction,
        Cause::Syntax => AsmCause::Syntax,
        Cause::NumberRange => AsmCause::NumberRange,
        Cause::LocalsRange => AsmCause::LocalsRange,
        Cause::RepeatRange => AsmCause::RepeatRange,
        Cause::TooDeep => AsmCause::TooDeep,
    }
}

fn link_cause(cause: LinkCause) -> AsmCause
    ensures { result ≡ link_cause cause }
{
    match cause {
        LinkCause::Duplicate => AsmCause::Duplicate,
        LinkCause::TooManyExports => AsmCause::TooManyExports,
        LinkCause::UnknownProcedure => AsmCause::UnknownProcedure,
        LinkCause::NotInKernel => AsmCause::NotInKernel,
        LinkCause::Recursive => AsmCause::Recursive,
        LinkCause::TooManyOps => AsmCause::TooManyOps,
        LinkCause::TooDeep => AsmCause::TooDeep,
    }
}

// The refusal of a source that has no tokens.
pub(crate) fn lex_refusal(in_kernel: bool, error: LexError) -> AsmError
    ensures { result ≡ lex_refusal in_kernel error }
{
    match error {
        LexError::Bad { line, column } => AsmError::Bad {
            in_kernel,
            line,
            column,
            cause: AsmCause::Lexical,
        },
        LexError::Memory => AsmError::Memory,
    }
}

// The refusal of a source that has no syntax tree.
pub(crate) fn parse_refusal(in_kernel: bool, error: ParseError) -> AsmError
    ensures { result ≡ parse_refusal in_kernel error }
{
    match error {
        ParseError::Bad {
            line,
            column,
            cause,
        } => AsmError::Bad {
            in_kernel,
            line,
            column,
            cause: parse_cause(cause),
        },
        ParseError::Memory => AsmError::Memory,
    }
}

// The refusal of a source that is read.
pub(crate) fn link_refusal(in_kernel: bool, refusal: Refusal) -> AsmError
    ensures { result ≡ link_refusal in_kernel refusal.at refusal.cause }
{
    AsmError::Bad {
        in_kernel,
        line: refusal.at.line,
        column: refusal.at.column,
        cause: link_cause(refusal.cause),
    }
}
