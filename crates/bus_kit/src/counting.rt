ghost use Rattle.std.specs.Prelude.{◌≡◌, ℕ, ◌+◌, ◌≤◌, List, IfSome, length};
ghost use Rattle.bus_kit.specs.Scanning.{IsAnswerOf, scanned as scanned_of, told as told_of};
ghost use Rattle.bus_kit.specs.Widths.{tallied};

use crate::count::{Both, Count, Side, added};
use crate::seed::Seed;
use crate::tally::Tally;
use crate::tuple::{Tuple, Unequal};
use std::alloc::Global;
use std::cmp::Ordering;
use std::collections::HashMap;
use vm_field::{Felt, Memory};

/// A tuple of N elements, and both its counts.
pub type Entry<const N: usize> = ([Felt; N], Both);

// The best entry so far, behind one more.
fn scanned<const N: usize>(
    best: Option<Entry<N>>,
    tuple: &[Felt; N],
    both: &Both,
) -> Option<Entry<N>>
    requires { N ≤ 14 }
    ensures { result ≡ scanned_of best.entry (tuple.now, both.now) }
{
    if both.0 == both.1 {
        return best;
    }
    let is_lesser = match &best {
        None => true,
        Some(least) => tuple.cmp(&least.0) == Ordering::Less,
    };
    if is_lesser {
        let tuple = *tuple;
        Some((tuple, *both))
    } else {
        best
    }
}

// An entry, as it is told.
fn told<const N: usize>(entry: &Entry<N>) -> Unequal
    requires { N ≤ 14 }
    ensures is { result ≡ told_of entry.now }
    ensures width { length result.tuple ≡ N }
{
    Unequal {
        tuple: Tuple::of(&entry.0),
        asked: entry.1.0,
        given: entry.1.1,
    }
}

impl<const N: usize> Tally<N> {
    /// The tally of no tuple. It allocates nothing.
    #[tactic(auto, unfolding(crate::specs::Widths::tallied))]
    pub fn new(alloc: Global, seed: Seed) -> Tally<N>
        requires { N ≤ 14 }
        ensures { (u : List ℕ) → tallied result u ≡ (0, 0) }
    {
        Tally {
            both: HashMap::with_hasher(alloc, seed),
        }
    }

    /// How often a tuple was asked, and how often it was given: never where it has not N elements. It takes no memory.
    #[tactic(auto, unfolding(crate::specs::Widths::tallied))]
    pub fn counts(&self, tuple: &[Felt]) -> Both
        ensures { result ≡ tallied self.now tuple.now }
    {
        if tuple.len() != N {
            return (0, 0);
        }
        let mut key = [Felt::ZERO; N];
        key.copy_from_slice(tuple);
        match self.both.get(&key) {
            Some(both) => *both,
            None => (0, 0),
        }
    }

    /// The least tuple that was not asked as often as it was given, with both counts, or none exactly
    /// where there is no such tuple. It takes no memory.
    #[tactic(auto, unfolding(crate::specs::Widths::tallied))]
    pub fn unequal(&self) -> Option<Unequal>
        requires { N ≤ 14 }
        ensures least { IsAnswerOf (tallied self.now) result }
        ensures width { IfSome result (λ x. length x.tuple ≡ N) }
    {
        let mut best = None;
        for (tuple, both) in self.both.iter() {
            best = scanned(best, tuple, both);
        }
        match &best {
            None => None,
            Some(entry) => Some(told(entry)),
        }
    }
}

impl<const N: usize> Count<N> for Tally<N> {
    ghost use Rattle.bus_kit.specs.Widths.{tallied};

    ghost both = { tallied };

    #[tactic(auto, unfolding(crate::specs::Widths::tallied))]
    fn add(&mut self, side: Side, tuple: &[Felt; N], count: u64) -> Result<(), Memory> {
        let entry = self.both.entry(*tuple)?;
        let both = entry.or_insert((0, 0));
        *both = added(side, *both, count);
        Ok(())
    }
}
