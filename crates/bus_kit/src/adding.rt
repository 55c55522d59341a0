ghost use Rattle.std.specs.Prelude.{◌≡◌, ℕ, ◌+◌, ◌^◌, ◌<◌, ◌≤◌, List, [], ◌∷◌, length, OnOk};
ghost use Rattle.bus_kit.specs.Adding.{IsCounted, singles};
ghost use Rattle.buses.specs.Counts.{once};

use crate::count::{Count, Side};
use vm_field::{Felt, Memory};

/// Asks a tuple once.
pub fn ask<const N: usize, T: Count<N>>(tally: &mut T, tuple: &[Felt; N]) -> Result<(), Memory>
    requires room { (u : List ℕ) → (T.both tally.old u).0 + 2 ^ 64 < 2 ^ 128 }
    ensures { OnOk result (IsCounted 1 (T.both tally.old) (T.both tally.new) (once tuple.now ∷ []) []) }
{
    tally.add(Side::Asked, tuple, 1)
}

/// Gives a tuple once.
pub fn give<const N: usize, T: Count<N>>(tally: &mut T, tuple: &[Felt; N]) -> Result<(), Memory>
    requires room { (u : List ℕ) → (T.both tally.old u).1 + 2 ^ 64 < 2 ^ 128 }
    ensures { OnOk result (IsCounted 1 (T.both tally.old) (T.both tally.new) [] (once tuple.now ∷ [])) }
{
    tally.add(Side::Given, tuple, 1)
}

/// Gives a tuple so many times. One that is given no time takes no memory.
pub fn give_times<const N: usize, T: Count<N>>(
    tally: &mut T,
    tuple: &[Felt; N],
    count: Felt,
) -> Result<(), Memory>
    requires room { (u : List ℕ) → (T.both tally.old u).1 + 2 ^ 64 < 2 ^ 128 }
    ensures { OnOk result (IsCounted (2 ^ 64) (T.both tally.old) (T.both tally.new) [] (record { tuple = tuple.now; count = count } ∷ [])) }
{
    let count = count.value();
    if count == 0 {
        return Ok(());
    }
    tally.add(Side::Given, tuple, count)
}

/// Asks each of these values as a tuple of its own.
pub fn ask_values<T: Count<1>>(tally: &mut T, values: &[Felt]) -> Result<(), Memory>
    requires few { length values.now ≤ 16 }
    requires room { (u : List ℕ) → (T.both tally.old u).0 + 2 ^ 65 < 2 ^ 128 }
    ensures { OnOk result (IsCounted 16 (T.both tally.old) (T.both tally.new) (singles values.now) []) }
{
    for value in values {
        let tuple = [*value];
        ask(tally, &tuple)?;
    }
    Ok(())
}
