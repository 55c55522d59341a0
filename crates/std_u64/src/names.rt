ghost use Rattle.std.specs.Prelude.{◌≡◌, ◌↔◌, Some};
ghost use Rattle.std_u64.specs.declared.names.U64Procedure.{U64Procedure};
ghost use Rattle.std_u64.specs.Lists.{name_of_procedure, procedure_of};

/// A procedure on two numbers of 64 bits, b on top of a.
#[derive(Clone, Copy, Debug, PartialEq, Eq)]
pub enum U64Procedure {
    /// The carry on top of a + b modulo 2^64.
    OverflowingAdd,
    /// a + b modulo 2^64.
    WrappingAdd,
    /// a + b, which must be below 2^64.
    CheckedAdd,
    /// The borrow on top of a - b modulo 2^64.
    OverflowingSub,
    /// a - b modulo 2^64.
    WrappingSub,
    /// a - b, which must not be negative.
    CheckedSub,
    /// Whether a < b.
    Lt,
    /// Whether a >= b.
    Gte,
    /// Whether a > b.
    Gt,
    /// Whether a <= b.
    Lte,
    /// Whether a = b.
    Eq,
}

// Every procedure.
pub(crate) const EVERY: [U64Procedure; 11] = [
    U64Procedure::OverflowingAdd,
    U64Procedure::WrappingAdd,
    U64Procedure::CheckedAdd,
    U64Procedure::OverflowingSub,
    U64Procedure::WrappingSub,
    U64Procedure::CheckedSub,
    U64Procedure::Lt,
    U64Procedure::Gte,
    U64Procedure::Gt,
    U64Procedure::Lte,
    U64Procedure::Eq,
];

impl U64Procedure {
    /// How the procedure is named in a source.
    pub fn name(self) -> &'static [u8]
        ensures { result.now ≡ name_of_procedure self }
    {
        match self {
            U64Procedure::OverflowingAdd => b"u64_overflowing_add",
            U64Procedure::WrappingAdd => b"u64_wrapping_add",
            U64Procedure::CheckedAdd => b"u64_checked_add",
            U64Procedure::OverflowingSub => b"u64_overflowing_sub",
            U64Procedure::WrappingSub => b"u64_wrapping_sub",
            U64Procedure::CheckedSub => b"u64_checked_sub",
            U64Procedure::Lt => b"u64_lt",
            U64Procedure::Gte => b"u64_gte",
            U64Procedure::Gt => b"u64_gt",
            U64Procedure::Lte => b"u64_lte",
            U64Procedure::Eq => b"u64_eq",
        }
    }
}

// The first of these procedures that has the name.
fn find(procedures: &[U64Procedure], name: &[u8]) -> Option<U64Procedure>
    ensures { result ≡ procedure_of procedures.now name.now }
{
    for procedure in procedures {
        if procedure.name() == name {
            return Some(*procedure);
        }
    }
    None
}

/// The procedure of this name, if any procedure has it.
pub fn by_name(name: &[u8]) -> Option<U64Procedure>
    ensures { (procedure : U64Procedure) → (result ≡ Some procedure) ↔ (name_of_procedure procedure ≡ name.now) }
{
    find(&EVERY, name)
}
