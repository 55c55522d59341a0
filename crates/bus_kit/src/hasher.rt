ghost use Rattle.std.specs.Prelude.{◌≡◌, ℕ, List};
ghost use Rattle.bus_kit.specs.Scanning.{IsAnswerOf};
ghost use Rattle.bus_kit.specs.Tallies.{steps_tallied};

use crate::count::{Both, Count, Side};
use crate::seed::Seed;
use crate::tally::Tally;
use crate::tuple::Unequal;
use std::alloc::Global;
use vm_field::{Felt, Memory};

/// The tally of the hasher's bus, on which a step of a hash has as many elements as its tag says.
#[derive(Drop)]
pub struct StepTally {
    pub(crate) ends: Tally<6>,
    pub(crate) batches: Tally<10>,
    pub(crate) starts: Tally<11>,
    pub(crate) states: Tally<14>,
}

impl StepTally {
    /// The tally of no step. It allocates nothing.
    pub fn new(alloc: Global, seed: Seed) -> StepTally
        ensures { (u : List ℕ) → steps_tallied result u ≡ (0, 0) }
    {
        StepTally {
            ends: Tally::new(alloc, seed),
            batches: Tally::new(alloc, seed),
            starts: Tally::new(alloc, seed),
            states: Tally::new(alloc, seed),
        }
    }

    /// How often a step was asked, and how often it was given: never where none has so many elements. It takes no memory.
    #[tactic(auto, unfolding(crate::specs::Tallies::steps_tallied))]
    pub fn counts(&self, step: &[Felt]) -> Both
        ensures { result ≡ steps_tallied self.now step.now }
    {
        match step.len() {
            6 => self.ends.counts(step),
            10 => self.batches.counts(step),
            11 => self.starts.counts(step),
            14 => self.states.counts(step),
            _ => (0, 0),
        }
    }

    /// The least step that was not asked as often as it was given, with both counts, or none exactly
    /// where there is no such step. It takes no memory.
    pub fn unequal(&self) -> Option<Unequal>
        ensures { IsAnswerOf (steps_tallied self.now) result }
    {
        let states = self.states.unequal();
        let starts = Unequal::lesser(self.starts.unequal(), states);
        let batches = Unequal::lesser(self.batches.unequal(), starts);
        Unequal::lesser(self.ends.unequal(), batches)
    }
}

impl Count<6> for StepTally {
    ghost use Rattle.bus_kit.specs.Tallies.{steps_tallied};

    ghost both = { steps_tallied };

    fn add(&mut self, side: Side, tuple: &[Felt; 6], count: u64) -> Result<(), Memory> {
        self.ends.add(side, tuple, count)
    }
}

impl Count<10> for StepTally {
    ghost use Rattle.bus_kit.specs.Tallies.{steps_tallied};

    ghost both = { steps_tallied };

    fn add(&mut self, side: Side, tuple: &[Felt; 10], count: u64) -> Result<(), Memory> {
        self.batches.add(side, tuple, count)
    }
}

impl Count<11> for StepTally {
    ghost use Rattle.bus_kit.specs.Tallies.{steps_tallied};

    ghost both = { steps_tallied };

    fn add(&mut self, side: Side, tuple: &[Felt; 11], count: u64) -> Result<(), Memory> {
        self.starts.add(side, tuple, count)
    }
}

impl Count<14> for StepTally {
    ghost use Rattle.bus_kit.specs.Tallies.{steps_tallied};

    ghost both = { steps_tallied };

    fn add(&mut self, side: Side, tuple: &[Felt; 14], count: u64) -> Result<(), Memory> {
        self.states.add(side, tuple, count)
    }
}
