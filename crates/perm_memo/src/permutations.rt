ghost use Rattle.std.specs.Prelude.{◌≡◌, ◌<◌, [], EachIndex, IfSome, length, slice_index, slice_index_or};
ghost use Rattle.rpo_hash.specs.Constants.{constants_of};
ghost use Rattle.vm_field.specs.Limits.{number_of_constants};
ghost use Rattle.vm_field.specs.Field.{prime};
ghost use Rattle.vm_field.specs.Permutation.{permuted};
ghost use Rattle.perm_memo.specs.RoundStates.{round_states};

use rpo_hash::{Params, known_constants, round};
use std::alloc::Global;
use std::collections::BTreeMap;
use std::marker::Model;
use vm_field::Felt;

/// Permutations that were computed under one list of constants, by the state before them, so that
/// none of these is computed again. It is seen as the constants.
#[derive(Drop)]
pub struct Permutations {
    params: Params,
    // whether any is kept
    keeps: bool,
    kept: Vec<[[Felt; 12]; 8]>,
    // where one stands, by the fingerprint of its first state; another state may have the same one
    places: BTreeMap<u64, usize>,
}

impl Model for Permutations {
    ghost use Rattle.std.specs.Prelude.{ℕ, List, All};
    ghost use Rattle.rpo_hash.specs.Constants.{constants_of};
    ghost use Rattle.perm_memo.specs.RoundStates.{AreRounds};

    ghost Value = { List ℕ };

    ghost view = { λ p. constants_of p.params };

    ghost invariant = { λ p. All (AreRounds (constants_of p.params)) p.kept.items };
}

impl Permutations {
    /// No permutations yet, under these constants; each is to be kept while memory serves. It
    /// allocates nothing.
    pub fn new(alloc: Global, params: &Params) -> Permutations
        ensures { result ≡ constants_of params.now }
    {
        Permutations::of(alloc, params, true)
    }

    /// No permutations under these constants, now or later: each is computed anew, and none takes
    /// memory. It serves a caller whose states do not come twice.
    pub fn keeping_none(alloc: Global, params: &Params) -> Permutations
        ensures { result ≡ constants_of params.now }
    {
        Permutations::of(alloc, params, false)
    }

    // No permutations yet, under these constants.
    fn of(alloc: Global, params: &Params, keeps: bool) -> Permutations
        ensures { result ≡ constants_of params.now }
    {
        Permutations {
            params: *params,
            keeps,
            kept: Vec::new(alloc),
            places: BTreeMap::new(alloc),
        }
    }

    /// The constants.
    pub fn params(&self) -> &Params
        ensures { constants_of result.now ≡ self.now }
    {
        &self.params
    }

    /// The state, and what it is behind each of the seven rounds. They are kept for the next time
    /// behind `new` while memory serves, and never behind `keeping_none`.
    pub fn rounds(&mut self, state: &[Felt; 12]) -> [[Felt; 12]; 8]
        ensures rounds { result ≡ round_states self.old state.now }
        ensures same { self.new ≡ self.old }
    {
        let fingerprint = fingerprint(state);
        if let Some(states) = self.found(fingerprint, state) {
            return states;
        }
        let states = computed(&self.params, state);
        self.keep(fingerprint, &states);
        states
    }

    /// The same of what is kept, or computed where it is not. It keeps nothing, so that several threads may
    /// ask at once.
    pub fn rounds_of(&self, state: &[Felt; 12]) -> [[Felt; 12]; 8]
        ensures { result ≡ round_states self.now state.now }
    {
        match self.found(fingerprint(state), state) {
            Some(states) => states,
            None => computed(&self.params, state),
        }
    }

    // The states of this state's permutation, if they are kept.
    fn found(&self, fingerprint: u64, state: &[Felt; 12]) -> Option<[[Felt; 12]; 8]>
        ensures { IfSome result (λ states. states ≡ round_states self.now state.now) }
    {
        let states = self.kept.get(*self.places.get(&fingerprint)?)?;
        if states[0] == *state {
            Some(*states)
        } else {
            None
        }
    }

    // Keeps the states of a permutation, if they are to be kept. Where memory is refused, they are not
    // found again.
    fn keep(&mut self, fingerprint: u64, states: &[[Felt; 12]; 8])
        requires { states.now ≡ round_states self.old (slice_index_or states.now 0 []) }
        ensures { self.new ≡ self.old }
    {
        let place = self.kept.len();
        if self.keeps && self.kept.push(*states).is_ok() {
            let _ = self.places.insert(fingerprint, place);
        }
    }

    /// The permutation of the state: what it is behind the last round. It is kept as `rounds` does.
    pub fn permuted(&mut self, state: &[Felt; 12]) -> [Felt; 12]
        ensures is { result ≡ permuted self.old state.now }
        ensures below { EachIndex result (λ k. slice_index result k < prime) }
        ensures constants { length self.old ≡ number_of_constants }
        ensures same { self.new ≡ self.old }
    {
        known_constants(&self.params);
        self.rounds(state)[7]
    }
}

// The state, and what it is behind each of the seven rounds.
fn computed(params: &Params, state: &[Felt; 12]) -> [[Felt; 12]; 8]
    ensures { result ≡ round_states (constants_of params.now) state.now }
{
    let mut states = [*state; 8];
    for k in 0..7 {
        states[k + 1] = round(params, k, &states[k]);
    }
    states
}

// A number that tells states apart, mostly.
fn fingerprint(state: &[Felt; 12]) -> u64 {
    let mut fingerprint: u64 = 0;
    for element in state {
        fingerprint = (fingerprint.rotate_left(5) ^ element.value()).wrapping_mul(
            0x517c_c1b7_2722_0a95,
        );
    }
    fingerprint
}

fn crosses<T: Send + Sync>() {}

/// Permutations may be sent to other threads and read by several.
pub fn types_cross() {
    crosses::<Permutations>();
}
