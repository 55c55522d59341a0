//! The states of the permutations of a round, in pieces that are filled at once.
ghost use Rattle.std.specs.Prelude.{◌≡◌, ◌+◌, ◌^◌, ◌<◌, ◌≤◌, length};
ghost use Rattle.std.specs.Thread.{IsSync};
ghost use Rattle.pieces.specs.Cuts.{cut_at};
ghost use Rattle.fill_chips.specs.Rounds.{between, states_of};

use air_kit::Perm;
use perm_memo::Permutations;
use pieces::cut;
use std::thread;
use std::thread::Threads;
use vm_field::Felt;
use vm_io::Gate;

/// The state before a permutation, and behind each of its rounds.
pub(crate) type States = [[Felt; 12]; 8];

/// Fills the states of a round's permutations. They are cut into so many pieces, of which those from `low` on and below `high`
/// are filled, each behind its entry at the gate.
#[cycle(halves)]
pub(crate) fn fill_halves<R: Threads + Sync, G: Gate>(
    rt: &R,
    gate: &G,
    permutations: &Permutations,
    round: &[Perm],
    pieces: usize,
    low: usize,
    high: usize,
    states: &mut [States],
)
    requires few { length round.now < 2 ^ 32 }
    requires most { pieces ≤ 64 }
    requires some { low < high }
    requires within { high ≤ pieces }
    requires room { cut_at low (length round.now) pieces + length states.old ≡ cut_at high (length round.now) pieces }
    ensures { states.new ≡ states_of permutations.now (between (cut_at low (length round.now) pieces) (cut_at high (length round.now) pieces) round.now) }
{
    let from = cut(low, round.len(), pieces);
    if high - low == 1 {
        gate.enter(low);
        let to = cut(high, round.len(), pieces);
        fill(permutations, &round[from..to], states);
        return;
    }
    let middle = low + (high - low) / 2;
    let (front, back) = states.split_at_mut(cut(middle, round.len(), pieces) - from);
    both_halves(
        rt,
        gate,
        permutations,
        round,
        pieces,
        low,
        middle,
        high,
        front,
        back,
    );
}

// Fills both halves, at once.
#[cycle(halves)]
fn both_halves<R: Threads + Sync, G: Gate>(
    rt: &R,
    gate: &G,
    permutations: &Permutations,
    round: &[Perm],
    pieces: usize,
    low: usize,
    middle: usize,
    high: usize,
    lower: &mut [States],
    upper: &mut [States],
)
    requires few { length round.now < 2 ^ 32 }
    requires most { pieces ≤ 64 }
    requires first { low < middle }
    requires second { middle < high }
    requires within { high ≤ pieces }
    requires lower { cut_at low (length round.now) pieces + length lower.old ≡ cut_at middle (length round.now) pieces }
    requires upper { cut_at middle (length round.now) pieces + length upper.old ≡ cut_at high (length round.now) pieces }
    ensures lower { lower.new ≡ states_of permutations.now (between (cut_at low (length round.now) pieces) (cut_at middle (length round.now) pieces) round.now) }
    ensures upper { upper.new ≡ states_of permutations.now (between (cut_at middle (length round.now) pieces) (cut_at high (length round.now) pieces) round.now) }
{
    let mut front = ||
        requires { IsSync R.row × IsSync G.row × (length round.now < 2 ^ 32) × (pieces ≤ 64) × (low < middle) × (middle ≤ pieces) × (cut_at low (length round.now) pieces + length lower.now ≡ cut_at middle (length round.now) pieces) }
        ensures { lower.exit.now ≡ states_of permutations.entry.now (between (cut_at low (length round.entry.now) pieces) (cut_at middle (length round.entry.now) pieces) round.entry.now) }
    { fill_halves(rt, gate, permutations, round, pieces, low, middle, lower) };
    let mut back = ||
        requires { IsSync R.row × IsSync G.row × (length round.now < 2 ^ 32) × (pieces ≤ 64) × (middle < high) × (high ≤ pieces) × (cut_at middle (length round.now) pieces + length upper.now ≡ cut_at high (length round.now) pieces) }
        ensures { upper.exit.now ≡ states_of permutations.entry.now (between (cut_at middle (length round.entry.now) pieces) (cut_at high (length round.entry.now) pieces) round.entry.now) }
    { fill_halves(rt, gate, permutations, round, pieces, middle, high, upper) };
    thread::join_mut(rt, &mut front, &mut back);
}

// Fills the states of these permutations, one after another.
fn fill(permutations: &Permutations, perms: &[Perm], states: &mut [States])
    requires { length states.old ≡ length perms.now }
    ensures { states.new ≡ states_of permutations.now perms.now }
{
    for k in 0..perms.len() {
        states[k] = permutations.rounds_of(&perms[k].start);
    }
}
