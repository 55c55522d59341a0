ghost use Rattle.std.specs.Prelude.{◌≡◌, ℕ, ◌+◌, ◌^◌, ◌<◌, List, [], ◌∷◌};
ghost use Rattle.bus_kit.specs.Counting.{on_side, IsAdded};
ghost use Rattle.bus_kit.specs.Scanning.{IsAnswerOf};
ghost use Rattle.bus_kit.specs.Tallies.{values_tallied};

use crate::count::{Both, Count, Side, added};
use crate::seed::Seed;
use crate::tally::Tally;
use crate::tuple::{Tuple, Unequal};
use crate::values::{SMALL, ValueTally, first_apart, make_room};
use std::alloc::Global;
use vm_field::{Felt, Memory};

impl ValueTally {
    /// The tally of no element. It allocates nothing.
    #[tactic(auto, unfolding(crate::specs::Tallies::values_tallied))]
    pub fn new(alloc: Global, seed: Seed) -> ValueTally
        ensures { (u : List ℕ) → values_tallied result u ≡ (0, 0) }
    {
        ValueTally {
            small: Vec::new(alloc),
            great: Tally::new(alloc, seed),
        }
    }

    /// How often a tuple was asked, and how often it was given: never where it is no single element. It takes no memory.
    #[tactic(auto, unfolding(crate::specs::Tallies::values_tallied))]
    pub fn counts(&self, tuple: &[Felt]) -> Both
        ensures { result ≡ values_tallied self.now tuple.now }
    {
        let [element] = tuple else {
            return (0, 0);
        };
        let place = element.value() as usize;
        if place >= SMALL {
            return self.great.counts(tuple);
        }
        match self.small.get(place) {
            Some(both) => *both,
            None => (0, 0),
        }
    }

    /// The least element that was not asked as often as it was given, with both counts, or none exactly
    /// where there is no such element. It takes no memory.
    #[tactic(auto, unfolding(crate::specs::Tallies::values_tallied))]
    pub fn unequal(&self) -> Option<Unequal>
        ensures { IsAnswerOf (values_tallied self.now) result }
    {
        let Some(place) = first_apart(&self.small) else {
            return self.great.unequal();
        };
        let both = self.small[place];
        Some(Unequal {
            tuple: Tuple::of(&[Felt::from_u32(place as u32)]),
            asked: both.0,
            given: both.1,
        })
    }
}

impl ValueTally {
    // Counts an element on one side. At `Memory` it had no count, and all counts are as before.
    #[tactic(auto, unfolding(crate::specs::Tallies::values_tallied))]
    fn add_element(&mut self, side: Side, element: Felt, count: u64) -> Result<(), Memory>
        requires { on_side side (values_tallied self.old (element ∷ [])) + count < 2 ^ 128 }
        ensures { IsAdded side (element ∷ []) count (values_tallied self.old) (values_tallied self.new) result }
    {
        let place = element.value() as usize;
        if place >= SMALL {
            return self.great.add(side, &[element], count);
        }
        if self.small.len() <= place {
            make_room(&mut self.small, SMALL)?;
        }
        let both = self.small[place];
        self.small[place] = added(side, both, count);
        Ok(())
    }
}

impl Count<1> for ValueTally {
    ghost use Rattle.bus_kit.specs.Tallies.{values_tallied};

    ghost both = { values_tallied };

    fn add(&mut self, side: Side, tuple: &[Felt; 1], count: u64) -> Result<(), Memory> {
        self.add_element(side, tuple[0], count)
    }
}
