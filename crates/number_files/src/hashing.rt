ghost use Rattle.std.specs.Prelude.{◌≡◌, ◌≤◌, ◌+◌, ◌*◌, length, take, drop};
ghost use Rattle.rpo_hash.specs.Constants.{constants_of};
ghost use Rattle.number_files.specs.Hashing.{digest_of_elements as digest_by_eight};

use rpo_hash::{Params, Sponge};
use vm_field::{Felt, Word};

/// The digest of elements, eight to a block, with domain 0. Those behind the last whole block are
/// not hashed.
pub fn digest_of_elements(constants: &Params, elements: &[Felt]) -> Word
    requires { 8 ≤ length elements.now }
    ensures { result ≡ digest_by_eight (constants_of constants.now) elements.now }
{
    let mut sponge = Sponge::begin(Felt::ZERO);
    for k in 0..elements.len() / 8 {
        sponge.absorb(constants, &block_at(elements, k));
    }
    sponge.digest()
}

// Block k of the elements.
fn block_at(elements: &[Felt], k: usize) -> [Felt; 8]
    requires { 8 * k + 8 ≤ length elements.now }
    ensures { result ≡ take 8 (drop (8 * k) elements.now) }
{
    let mut block = [Felt::ZERO; 8];
    block.copy_from_slice(&elements[8 * k..8 * k + 8]);
    block
}
