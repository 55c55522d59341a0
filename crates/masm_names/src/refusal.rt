ghost use Rattle.std.specs.Prelude.{◌≡◌};
ghost use Rattle.masm_names.specs.Causes.{text_of_cause, order};
ghost use Rattle.masm_names.specs.Earlier.{is_no_later, earlier};

use masm_tree::Position;
use std::fmt;

/// Why a source is refused once it is read (docs/ASSEMBLY.md), in the order in which the causes of
/// one place are tested.
#[derive(Clone, Copy, Debug, PartialEq, Eq)]
pub enum LinkCause {
    /// A constant or a procedure of that name was defined before.
    Duplicate,
    /// 255 procedures are exported already.
    TooManyExports,
    /// The source has no procedure of that name.
    UnknownProcedure,
    /// The kernel exports no procedure of that name.
    NotInKernel,
    /// The procedure that is used reaches the one that uses it.
    Recursive,
    /// The tree has more than 524,288 operations.
    TooManyOps,
    /// More than 1,024 blocks stand on one path of the tree.
    TooDeep,
}

/// The cause's name, as it is printed.
pub fn cause_text(cause: LinkCause) -> &'static str
    ensures { result.now ≡ text_of_cause cause }
{
    match cause {
        LinkCause::Duplicate => "Duplicate",
        LinkCause::TooManyExports => "TooManyExports",
        LinkCause::UnknownProcedure => "UnknownProcedure",
        LinkCause::NotInKernel => "NotInKernel",
        LinkCause::Recursive => "Recursive",
        LinkCause::TooManyOps => "TooManyOps",
        LinkCause::TooDeep => "TooDeep",
    }
}

impl fmt::Display for LinkCause {
    ghost use Rattle.std.specs.Prelude.{Some};
    ghost use Rattle.masm_names.specs.Causes.{text_of_cause};

    ghost output = { λ cause. Some (text_of_cause cause) };

    fn fmt<W: fmt::Write>(&self, f: &mut fmt::Formatter<W>) -> fmt::Result {
        let name = cause_text(*self);
        write!(f, "{name}")
    }
}

/// Where a source is refused once it is read, and why.
#[derive(Clone, Copy, Debug, PartialEq, Eq)]
pub struct Refusal {
    pub at: Position,
    pub cause: LinkCause,
}

// The cause's place among the causes of one place.
fn order(cause: LinkCause) -> u8
    ensures { result ≡ order cause }
{
    cause as u8
}

/// Whether a refusal is not behind another, by the line, then the column, then the cause.
pub fn is_no_later(a: Refusal, b: Refusal) -> bool
    ensures { result ≡ is_no_later a b }
{
    a.at.line < b.at.line
        || (a.at.line == b.at.line
            && (a.at.column < b.at.column
                || (a.at.column == b.at.column && order(a.cause) <= order(b.cause))))
}

/// The first of two refusals.
pub fn earlier(a: Option<Refusal>, b: Option<Refusal>) -> Option<Refusal>
    ensures { result ≡ earlier a b }
{
    match (a, b) {
        (None, other) | (other, None) => other,
        (Some(x), Some(y)) => Some(if is_no_later(x, y) { x } else { y }),
    }
}
