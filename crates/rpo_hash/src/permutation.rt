ghost use Rattle.std.specs.Prelude.{◌≡◌, ℕ, ◌<◌, [], length, EachIndex, slice_index, slice_index_or};
ghost use Rattle.rpo_hash.specs.Constants.{constants_of};
ghost use Rattle.rpo_hash.specs.States.{IsState};
ghost use Rattle.vm_field.specs.Limits.{number_of_constants};
ghost use Rattle.vm_field.specs.Field.{prime, felt_pow};
ghost use Rattle.vm_field.specs.Permutation.{added, before_roots, mixed, permuted, round, round_constants, seventh_powers};

use crate::frequencies::{Thirds, all_joined, high_halves, low_halves, product};
use crate::params::Params;
use vm_field::{Felt, roots7};

/// The permutation of a state of twelve elements: seven rounds.
pub fn permute(params: &Params, state: [Felt; 12]) -> [Felt; 12]
    ensures is { result ≡ permuted (constants_of params.now) state }
    ensures below { EachIndex result (λ k. slice_index result k < prime) }
    ensures constants { length (constants_of params.now) ≡ number_of_constants }
{
    known_constants(params);
    let mut state = state;
    for k in 0..7 {
        state = round(params, k, &state);
    }
    state
}

/// The round of number k, from 0: the seventh roots of what `before_roots` gives.
pub fn round(params: &Params, k: usize, state: &[Felt; 12]) -> [Felt; 12]
    requires { k < 7 }
    ensures is { result ≡ round (round_constants (constants_of params.now) k) state.now }
    ensures state { IsState result }
{
    roots7(&before_roots(params, k, state))
}

/// The state of the round of number k, from 0, before its seventh roots: the matrix and the round's
/// first constants, seventh powers, and the matrix and its second constants.
pub fn before_roots(params: &Params, k: usize, state: &[Felt; 12]) -> [Felt; 12]
    requires { k < 7 }
    ensures is { result ≡ before_roots (round_constants (constants_of params.now) k) state.now }
    ensures state { IsState result }
{
    known_constants(params);
    let powers = seventh_powers(&half(state, &params.first[k]));
    half(&powers, &params.second[k])
}

/// Looks at each round's constants, so that a proof learns that they are twelve and twelve. A run
/// does nothing.
pub fn known_constants(params: &Params)
    ensures twelve { (k : ℕ) → k < 7
        → (length (slice_index_or params.now.first k []) ≡ 12)
        × (length (slice_index_or params.now.second k []) ≡ 12) }
    ensures count { length (constants_of params.now) ≡ number_of_constants }
{
    for k in 0..7 {
        known_twelve(&params.first[k]);
        known_twelve(&params.second[k]);
    }
}

fn known_twelve(constants: &[Felt; 12])
    ensures { length constants.now ≡ 12 }
{}

// The matrix times the state, and constants.
fn half(state: &[Felt; 12], constants: &[Felt; 12]) -> [Felt; 12]
    ensures { result ≡ added (mixed state.now) constants.now }
{
    added(&mixed(state), constants)
}

// The matrix times the state.
fn mixed(state: &[Felt; 12]) -> [Felt; 12]
    ensures { result ≡ mixed state.now }
{
    let [a, b, c, d, e, f, g, h, i, j, k, l] = *state;
    let low = product(Thirds {
        zero: low_halves(a, d, g, j),
        one: low_halves(b, e, h, k),
        two: low_halves(c, f, i, l),
    });
    let high = product(Thirds {
        zero: high_halves(a, d, g, j),
        one: high_halves(b, e, h, k),
        two: high_halves(c, f, i, l),
    });
    all_joined(low, high)
}

// The sums of a state and constants, element by element.
fn added(state: &[Felt; 12], constants: &[Felt; 12]) -> [Felt; 12]
    ensures is { result ≡ added state.now constants.now }
    ensures below { EachIndex result (λ k. slice_index result k < prime) }
{
    let mut sums = *state;
    for i in 0..12 {
        sums[i] = state[i] + constants[i];
    }
    sums
}

fn seventh_powers(state: &[Felt; 12]) -> [Felt; 12]
    ensures { result ≡ seventh_powers state.now }
{
    let mut powers = *state;
    for i in 0..12 {
        powers[i] = seventh_power(state[i]);
    }
    powers
}

fn seventh_power(x: Felt) -> Felt
    ensures { result ≡ felt_pow x 7 }
{
    let to_2 = x.mul(x);
    let to_4 = to_2.mul(to_2);
    to_4.mul(to_2).mul(x)
}
