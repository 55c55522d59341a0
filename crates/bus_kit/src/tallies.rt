ghost use Rattle.std.specs.Prelude.{◌≡◌, ℕ, List};
ghost use Rattle.buses.specs.declared.bus.Bus.{Bus};
ghost use Rattle.bus_kit.specs.ByBus.{both_by};
ghost use Rattle.bus_kit.specs.Scanning.{IsAnswerOf};

use crate::count::Both;
use crate::hasher::StepTally;
use crate::seed::Seed;
use crate::tally::Tally;
use crate::tuple::Unequal;
use crate::values::ValueTally;
use buses::Bus;
use std::alloc::Global;
use vm_field::Felt;

/// A tally for each bus, of the width that its tuples have.
#[derive(Drop)]
pub struct Tallies {
    pub blocks: Tally<12>,
    pub children: Tally<6>,
    pub loops: Tally<5>,
    pub groups: Tally<3>,
    pub overflow: Tally<3>,
    pub hasher: StepTally,
    pub bitwise: Tally<4>,
    pub memory: Tally<8>,
    pub range: ValueTally,
    pub kernel: Tally<4>,
}

impl Tallies {
    /// The tallies of no tuple. It allocates nothing.
    pub fn new(alloc: Global, seed: Seed) -> Tallies
        ensures { (bus : Bus) (u : List ℕ) → both_by result bus u ≡ (0, 0) }
    {
        Tallies {
            blocks: Tally::new(alloc, seed),
            children: Tally::new(alloc, seed),
            loops: Tally::new(alloc, seed),
            groups: Tally::new(alloc, seed),
            overflow: Tally::new(alloc, seed),
            hasher: StepTally::new(alloc, seed),
            bitwise: Tally::new(alloc, seed),
            memory: Tally::new(alloc, seed),
            range: ValueTally::new(alloc, seed),
            kernel: Tally::new(alloc, seed),
        }
    }

    /// How often a tuple was asked on a bus, and how often it was given: never where it has not as many elements as the bus's
    /// tuples have. It takes no memory.
    pub fn counts(&self, bus: Bus, tuple: &[Felt]) -> Both
        ensures { result ≡ both_by self.now bus tuple.now }
    {
        match bus {
            Bus::Blocks => self.blocks.counts(tuple),
            Bus::Children => self.children.counts(tuple),
            Bus::Loops => self.loops.counts(tuple),
            Bus::Groups => self.groups.counts(tuple),
            Bus::Overflow => self.overflow.counts(tuple),
            Bus::Hasher => self.hasher.counts(tuple),
            Bus::Bitwise => self.bitwise.counts(tuple),
            Bus::Memory => self.memory.counts(tuple),
            Bus::Range => self.range.counts(tuple),
            Bus::Kernel => self.kernel.counts(tuple),
        }
    }

    /// The least tuple of a bus that was not asked as often as it was given, with both counts, or none
    /// exactly where there is no such tuple. It takes no memory.
    pub fn unequal(&self, bus: Bus) -> Option<Unequal>
        ensures { IsAnswerOf (both_by self.now bus) result }
    {
        match bus {
            Bus::Blocks => self.blocks.unequal(),
            Bus::Children => self.children.unequal(),
            Bus::Loops => self.loops.unequal(),
            Bus::Groups => self.groups.unequal(),
            Bus::Overflow => self.overflow.unequal(),
            Bus::Hasher => self.hasher.unequal(),
            Bus::Bitwise => self.bitwise.unequal(),
            Bus::Memory => self.memory.unequal(),
            Bus::Range => self.range.unequal(),
            Bus::Kernel => self.kernel.unequal(),
        }
    }
}
