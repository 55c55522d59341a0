ghost use Rattle.std.specs.Prelude.{◌≡◌, ◌++◌, take};
ghost use Rattle.vm_field.specs.Sponge.{hashed, squeezed};

use perm_memo::Permutations;
use vm_field::{Felt, Word};

// The digest of a domain and blocks. None of its permutations is computed again that is kept.
pub(crate) fn digest_of(permutations: &mut Permutations, domain: Felt, blocks: &[[Felt; 8]]) -> Word
    ensures digest { result ≡ hashed permutations.old domain blocks.now }
    ensures same { permutations.new ≡ permutations.old }
{
    let mut state = [Felt::ZERO; 12];
    state[1] = domain;
    for block in blocks {
        state = permutations.permuted(&overwritten(&state, block));
    }
    squeezed(&state)
}

// Elements 4 to 7 of a state.
fn squeezed(state: &[Felt; 12]) -> Word
    ensures { result ≡ squeezed state.now }
{
    let [_, _, _, _, first, second, third, fourth, ..] = *state;
    Word([first, second, third, fourth])
}

// The state with a block in the place of its rate.
fn overwritten(state: &[Felt; 12], block: &[Felt; 8]) -> [Felt; 12]
    ensures { result ≡ take 4 state.now ++ block.now }
{
    let mut overwritten = *state;
    for i in 0..8 {
        overwritten[4 + i] = block[i];
    }
    overwritten
}
