ghost use Rattle.std.specs.Prelude.{◌≡◌, ℕ, ◌+◌, ◌^◌, ◌<◌, List};
ghost use Rattle.bus_kit.specs.Counting.{more_on, on_side, IsAdded};

use vm_field::{Felt, Memory};

/// How often a tuple was asked, and how often it was given.
pub type Both = (u128, u128);

/// What is counted.
#[derive(Clone, Copy, Debug, PartialEq, Eq)]
pub enum Side {
    /// Tuples that are asked.
    Asked,
    /// Tuples that are given.
    Given,
}

// Both counts, with more on one side.
pub(crate) fn added(side: Side, both: Both, count: u64) -> Both
    requires { on_side side both + count < 2 ^ 128 }
    ensures { result ≡ more_on side count both }
{
    match side {
        Side::Asked => (both.0 + u128::from(count), both.1),
        Side::Given => (both.0, both.1 + u128::from(count)),
    }
}

/// What counts tuples of N elements: how often each was asked, and how often it was given. Both counts
/// are exact.
pub trait Count<const N: usize> {
    /// Both counts of each tuple: none of one that was never counted.
    ghost both: { Self → List ℕ → ℕ × ℕ };

    /// Counts a tuple on one side. One that has a count on either side takes no memory: at `Memory` it
    /// had none, and all counts are as before.
    fn add(&mut self, side: Side, tuple: &[Felt; N], count: u64) -> Result<(), Memory>
        requires { on_side side (both self.old tuple.now) + count < 2 ^ 128 }
        ensures { IsAdded side tuple.now count (both self.old) (both self.new) result };
}
