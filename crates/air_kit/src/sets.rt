ghost use Rattle.std.specs.Prelude.{◌≡◌};
ghost use Rattle.air_kit.specs.Flags.{is_left, is_right};
ghost use Rattle.air_kit.specs.Sets.{passes_of};

use vm_ops::{Op, Shift, is_ordinary, is_start, shift};

/// A set of operations whose flags an entry sums up.
#[derive(Clone, Copy, Debug, PartialEq, Eq)]
pub enum OpSet {
    /// All operations.
    Every,
    /// Those that a batch may hold.
    Ordinary,
    /// Those that start a block.
    Start,
    /// Those behind which the stack has one cell fewer.
    Left,
    /// Those behind which it has one more.
    Right,
}

impl OpSet {
    /// Whether an operation is in the set.
    pub fn holds(self, op: Op) -> bool
        ensures { result ≡ passes_of self op }
    {
        match self {
            OpSet::Every => true,
            OpSet::Ordinary => is_ordinary(op),
            OpSet::Start => is_start(op),
            OpSet::Left => is_left(op),
            OpSet::Right => is_right(op),
        }
    }
}

/// Whether the operation leaves one cell fewer than it takes.
pub fn is_left(op: Op) -> bool
    ensures { result ≡ is_left op }
{
    match shift(op) {
        Shift::Left => true,
        Shift::Stay | Shift::Right => false,
    }
}

fn is_right(op: Op) -> bool
    ensures { result ≡ is_right op }
{
    match shift(op) {
        Shift::Right => true,
        Shift::Left | Shift::Stay => false,
    }
}
