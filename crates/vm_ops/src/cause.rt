ghost use Rattle.std.specs.Prelude.{◌≡◌};
ghost use Rattle.vm_ops.specs.Causes.{text_of_cause};

use std::fmt;

/// Why a run traps (docs/MACHINE.md), in the order in which the causes of one cycle are tested; an
/// operation tests its own causes in the order of its line of the table.
#[derive(Clone, Copy, Debug, PartialEq, Eq)]
pub enum Cause {
    /// A block would start inside 1,024 others.
    NestedTooDeep,
    /// A block of which only the digest is known would start.
    OpaqueBlock,
    /// A dynamic block has no target of the digest on top of the stack.
    UnknownTarget,
    /// A batch has no reading.
    BadBatch,
    /// A cell that must be 0 or 1 is neither.
    NotBinary,
    /// A call or syscall starts inside a syscall.
    CallInSyscall,
    /// A syscall's target is not in the kernel's list.
    NotInKernel,
    /// A call ends at a depth above sixteen.
    DepthAtReturn,
    /// The inverse of 0.
    ZeroInverse,
    /// An address of 2^32 or more.
    AddressRange,
    /// The caller's digest is asked for outside a syscall.
    NotInSyscall,
    /// The tape has fewer elements than are taken.
    AdviceEmpty,
    /// An operand of 2^32 or more.
    NotU32,
    /// A division by 0.
    DivideByZero,
    /// An asserted cell is not 1.
    AssertFailed,
}

/// The cause's name, as it is printed.
pub fn cause_text(cause: Cause) -> &'static str
    ensures { result.now ≡ text_of_cause cause }
{
    match cause {
        Cause::NestedTooDeep => "NestedTooDeep",
        Cause::OpaqueBlock => "OpaqueBlock",
        Cause::UnknownTarget => "UnknownTarget",
        Cause::BadBatch => "BadBatch",
        Cause::NotBinary => "NotBinary",
        Cause::CallInSyscall => "CallInSyscall",
        Cause::NotInKernel => "NotInKernel",
        Cause::DepthAtReturn => "DepthAtReturn",
        Cause::ZeroInverse => "ZeroInverse",
        Cause::AddressRange => "AddressRange",
        Cause::NotInSyscall => "NotInSyscall",
        Cause::AdviceEmpty => "AdviceEmpty",
        Cause::NotU32 => "NotU32",
        Cause::DivideByZero => "DivideByZero",
        Cause::AssertFailed => "AssertFailed",
    }
}

impl fmt::Display for Cause {
    ghost use Rattle.std.specs.Prelude.{Some};
    ghost use Rattle.vm_ops.specs.Causes.{text_of_cause};

    ghost output = { λ cause. Some (text_of_cause cause) };

    fn fmt<W: fmt::Write>(&self, f: &mut fmt::Formatter<W>) -> fmt::Result {
        let name = cause_text(*self);
        write!(f, "{name}")
    }
}
