ghost use Rattle.std.specs.Prelude.{◌≡◌, ℕ, ◌*◌, ◌^◌, ◌<◌, ◌≤◌, List, [], ◌∷◌, ◌++◌, length, vec_len, All, IfOk, OnOk};
ghost use Rattle.vm_field.specs.Limits.{number_of_constants};
ghost use Rattle.rpo_hash.specs.States.{IsState};
ghost use Rattle.perm_memo.specs.RoundStates.{round_states};
ghost use Rattle.vm_ops.specs.Values.{bit_of};
ghost use Rattle.facts_hasher.specs.PermRows.{rows_before, rows_of_perms};
ghost use Rattle.fill_chips.specs.Rounds.{states_of};

use crate::rounds::{States, fill_halves};
use air_kit::Perm;
use perm_memo::Permutations;
use rpo_hash::known_constants;
use std::alloc::Global;
use std::thread::Threads;
use vm_field::{Felt, Memory, known_elements};
use vm_io::Gate;
use vm_table::Table;

/// How many permutations a round has at most: so few that their states, of 768 bytes each, stay in a cache until they are rows.
pub(crate) const ROUND: usize = 1024;

/// Eight rows for each permutation: the state before it and behind each round. They come in rounds of permutations, each of them
/// filled in so many pieces, of which each goes through the gate.
pub(crate) fn hasher_table<R: Threads + Sync, G: Gate>(
    rt: &R,
    alloc: Global,
    permutations: &Permutations,
    perms: &[Perm],
    pieces: usize,
    gate: &G,
) -> Result<Table<15>, Memory>
    requires room { 8 * length perms.now ≤ 2 ^ 22 }
    requires pieces { (1 ≤ pieces) × (pieces ≤ 64) }
    ensures rows { IfOk result (λ table. table ≡ rows_of_perms permutations.now perms.now) }
    ensures states { IfOk result (λ table. All (λ p. IsState p.start) perms.now) }
    ensures constants { length permutations.now ≡ number_of_constants }
{
    known_constants(permutations.params());
    let mut table = Table::new(alloc);
    table.reserve(8 * perms.len())?;
    let mut states: Vec<States> = Vec::new(alloc);
    states.resize(perms.len().min(ROUND), [[Felt::ZERO; 12]; 8])?;
    for k in 0..perms.len().div_ceil(ROUND) {
        let from = k * ROUND;
        let to = (from + ROUND).min(perms.len());
        add_round(
            rt,
            gate,
            permutations,
            &perms[from..to],
            pieces,
            &mut states,
            &mut table,
        )?;
    }
    Ok(table)
}

// Adds the rows of a round of permutations, when the states of all its pieces are there.
fn add_round<R: Threads + Sync, G: Gate>(
    rt: &R,
    gate: &G,
    permutations: &Permutations,
    round: &[Perm],
    pieces: usize,
    states: &mut Vec<States>,
    table: &mut Table<15>,
) -> Result<(), Memory>
    requires few { length round.now < 2 ^ 32 }
    requires pieces { (1 ≤ pieces) × (pieces ≤ 64) }
    requires room { length round.now ≤ vec_len states.old }
    ensures rows { OnOk result (table.new ≡ table.old ++ rows_of_perms permutations.now round.now) }
    ensures states { OnOk result (All (λ p. IsState p.start) round.now) }
    ensures room { vec_len states.new ≡ vec_len states.old }
{
    let filled = &mut states.as_mut_slice()[..round.len()];
    fill_halves(rt, gate, permutations, round, pieces, 0, pieces, filled);
    push_permutations(table, round, filled)
}

// Adds the rows of permutations, of which these are the states.
fn push_permutations(table: &mut Table<15>, perms: &[Perm], states: &[States]) -> Result<(), Memory>
    requires { length states.now ≡ length perms.now }
    ensures rows { (constants : List ℕ) → states.now ≡ states_of constants perms.now
        → OnOk result (table.new ≡ table.old ++ rows_of_perms constants perms.now) }
    ensures states { OnOk result (All (λ p. IsState p.start) perms.now) }
{
    for i in 0..perms.len() {
        push_permutation(table, &perms[i], &states[i])?;
    }
    Ok(())
}

// Adds the eight rows of a permutation, of which these are the states.
fn push_permutation(table: &mut Table<15>, perm: &Perm, states: &States) -> Result<(), Memory>
    ensures rows { (constants : List ℕ) → states.now ≡ round_states constants perm.now.start
        → OnOk result (table.new ≡ table.old ++ rows_before constants perm.now []) }
    ensures state { IsState perm.now.start }
{
    known_elements(&perm.start);
    for k in 0..7 {
        table.push_row(&row_of(perm, false, &states[k]))?;
    }
    table.push_row(&row_of(perm, perm.more, &states[7]))
}

// A row of a permutation, by whether the hash goes on behind it and its state.
fn row_of(perm: &Perm, goes_on: bool, state: &[Felt; 12]) -> [Felt; 15]
    ensures { result ≡ bit_of perm.now.mode ∷ bit_of perm.now.cont ∷ bit_of goes_on ∷ state.now }
{
    let [a, b, c, d, e, f, g, h, i, j, k, l] = *state;
    [
        bit_of(perm.mode),
        bit_of(perm.cont),
        bit_of(goes_on),
        a,
        b,
        c,
        d,
        e,
        f,
        g,
        h,
        i,
        j,
        k,
        l,
    ]
}

/// One where the bit is set, else zero.
pub(crate) fn bit_of(bit: bool) -> Felt
    ensures { result ≡ bit_of bit }
{
    if bit { Felt::ONE } else { Felt::ZERO }
}
