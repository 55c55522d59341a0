ghost use Rattle.std.specs.Prelude.{◌≡◌, ℕ, ◌≤◌, List, length, slice_index_or, OnOk, OnErr};
ghost use Rattle.buses.specs.declared.bus.Bus.{Bus};
ghost use Rattle.bus_kit.specs.ByBus.{both_by};
ghost use Rattle.bus_kit.specs.Counting.{both_hits, summed, FitTogether};
ghost use Rattle.bus_kit.specs.Tallies.{steps_tallied, values_tallied};
ghost use Rattle.bus_kit.specs.Widths.{tallied};

use crate::count::Both;
use crate::hasher::StepTally;
use crate::tallies::Tallies;
use crate::tally::Tally;
use crate::values::{ValueTally, make_room};
use buses::Bus;
use vm_field::{Felt, Memory};

impl<const N: usize> Tally<N> {
    // Adds both counts to those of a tuple. At `Memory` all counts are as before.
    #[tactic(auto, unfolding(crate::specs::Widths::tallied))]
    fn absorb_tuple(&mut self, tuple: [Felt; N], more: Both) -> Result<(), Memory>
        requires few { N ≤ 14 }
        requires fits { FitTogether (tallied self.old tuple) more }
        ensures ok { OnOk result ((u : List ℕ) → tallied self.new u ≡ summed (tallied self.old u) (both_hits tuple.entry more u)) }
        ensures err { OnErr result ((u : List ℕ) → tallied self.new u ≡ tallied self.old u) }
    {
        known_width(&tuple);
        let entry = self.both.entry(tuple)?;
        let both = entry.or_insert((0, 0));
        *both = (both.0 + more.0, both.1 + more.1);
        Ok(())
    }

    /// Adds the counts of another tally. At `Memory` this one is only good to be dropped: all that is
    /// known is that a tuple which neither counted has no count.
    #[tactic(auto, unfolding(crate::specs::Widths::tallied))]
    pub fn absorb(&mut self, other: &Tally<N>) -> Result<(), Memory>
        requires few { N ≤ 14 }
        requires fits { (u : List ℕ) → length u ≡ N → FitTogether (tallied self.old u) (tallied other.now u) }
        ensures ok { OnOk result ((u : List ℕ) → tallied self.new u ≡ summed (tallied self.old u) (tallied other.now u)) }
        ensures none { (u : List ℕ) → tallied self.old u ≡ (0, 0) → tallied other.now u ≡ (0, 0) → tallied self.new u ≡ (0, 0) }
    {
        for (tuple, both) in other.both.iter() {
            known_width(tuple);
            self.absorb_tuple(*tuple, *both)?;
        }
        Ok(())
    }
}

// A tuple has as many elements as its array. A run does nothing.
fn known_width<const N: usize>(tuple: &[Felt; N])
    ensures { length tuple.now ≡ N }
{}

// Adds other counts, place by place.
fn add_places(small: &mut [Both], other: &[Both])
    requires fits { (v : ℕ) → FitTogether (slice_index_or small.old v (0, 0)) (slice_index_or other.now v (0, 0)) }
    requires room { length other.now ≤ length small.old }
    ensures length { length small.new ≡ length small.old }
    ensures sums { (v : ℕ) → slice_index_or small.new v (0, 0) ≡ summed (slice_index_or small.old v (0, 0)) (slice_index_or other.now v (0, 0)) }
{
    for v in 0..other.len() {
        let more = other[v];
        let both = small[v];
        small[v] = (both.0 + more.0, both.1 + more.1);
    }
}

// Adds other counts, place by place, and makes room for them first.
fn absorb_places(small: &mut Vec<Both>, other: &[Both]) -> Result<(), Memory>
    requires few { length small.old.items ≤ 65536 }
    requires few_others { length other.now ≤ 65536 }
    requires fits { (v : ℕ) → FitTogether (slice_index_or small.old.items v (0, 0)) (slice_index_or other.now v (0, 0)) }
    ensures few { length small.new.items ≤ 65536 }
    ensures sums { OnOk result ((v : ℕ) → slice_index_or small.new.items v (0, 0) ≡ summed (slice_index_or small.old.items v (0, 0)) (slice_index_or other.now v (0, 0))) }
{
    if small.len() < other.len() {
        make_room(small, other.len())?;
    }
    add_places(small.as_mut_slice(), other);
    Ok(())
}

impl ValueTally {
    /// Adds the counts of another tally. At `Memory` this one is only good to be dropped.
    pub fn absorb(&mut self, other: &ValueTally) -> Result<(), Memory>
        requires { (u : List ℕ) → length u ≡ 1 → FitTogether (values_tallied self.old u) (values_tallied other.now u) }
        ensures { OnOk result ((u : List ℕ) → values_tallied self.new u ≡ summed (values_tallied self.old u) (values_tallied other.now u)) }
    {
        absorb_places(&mut self.small, other.small.as_slice())?;
        self.great.absorb(&other.great)
    }
}

impl StepTally {
    /// Adds the counts of another tally. At `Memory` this one is only good to be dropped.
    pub fn absorb(&mut self, other: &StepTally) -> Result<(), Memory>
        requires { (u : List ℕ) → FitTogether (steps_tallied self.old u) (steps_tallied other.now u) }
        ensures { OnOk result ((u : List ℕ) → steps_tallied self.new u ≡ summed (steps_tallied self.old u) (steps_tallied other.now u)) }
    {
        self.ends.absorb(&other.ends)?;
        self.batches.absorb(&other.batches)?;
        self.starts.absorb(&other.starts)?;
        self.states.absorb(&other.states)
    }
}

impl Tallies {
    /// Adds the counts of other tallies, bus by bus. At `Memory` these are only good to be dropped.
    pub fn absorb(&mut self, other: Tallies) -> Result<(), Memory>
        requires { (bus : Bus) (u : List ℕ) → FitTogether (both_by self.old bus u) (both_by other bus u) }
        ensures { OnOk result ((bus : Bus) (u : List ℕ) → both_by self.new bus u ≡ summed (both_by self.old bus u) (both_by other bus u)) }
    {
        self.blocks.absorb(&other.blocks)?;
        self.children.absorb(&other.children)?;
        self.loops.absorb(&other.loops)?;
        self.groups.absorb(&other.groups)?;
        self.overflow.absorb(&other.overflow)?;
        self.hasher.absorb(&other.hasher)?;
        self.bitwise.absorb(&other.bitwise)?;
        self.memory.absorb(&other.memory)?;
        self.range.absorb(&other.range)?;
        self.kernel.absorb(&other.kernel)
    }
}
