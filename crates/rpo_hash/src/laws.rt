ghost use Rattle.std.specs.Prelude.{◌≡◌, ◌↔◌, ℕ, suc, ◌<◌, List, [], ◌∷◌, ◌++◌, length, Ok};
ghost use Rattle.rpo_hash.specs.ParamText.{parameters_of, text_of};
ghost use Rattle.rpo_hash.specs.States.{IsState};
ghost use Rattle.vm_field.specs.Limits.{number_of_constants};
ghost use Rattle.vm_field.specs.Field.{AreElements};
ghost use Rattle.vm_field.specs.Machine.{IsWord};
ghost use Rattle.vm_field.specs.Permutation.{before_roots, permuted, round, round_constants, rounds, seventh_powers};
ghost use Rattle.vm_field.specs.Sponge.{absorbed, begun, hashed, sponge_after, squeezed};

use crate::params::{ParamError, Params};
use crate::sponge::Sponge;

/// The laws of the permutation. It is seven rounds, each under its own 24 constants; a state of
/// elements is what a round gives exactly where its seventh powers are the state before the roots.
/// Under every list of 168 constants the permutation takes no two states to one, and gives a state.
pub fn permutation_laws()
    ensures seven { (constants x : List ℕ) → permuted constants x ≡ rounds 7 constants x }
    ensures none { (constants x : List ℕ) → rounds 0 constants x ≡ x }
    ensures one_more { (k : ℕ) (constants x : List ℕ)
        → rounds (suc k) constants x ≡ round (round_constants constants k) (rounds k constants x) }

    ensures powers { (constants x y : List ℕ) → AreElements y
        → (y ≡ round constants x) ↔ (seventh_powers y ≡ before_roots constants x) }
    ensures round { (constants x : List ℕ) → length constants ≡ 24 → IsState (round constants x) }
    ensures before_roots { (constants x : List ℕ) → length constants ≡ 24
        → IsState (before_roots constants x) }

    ensures one_to_one { (constants x y : List ℕ) → length constants ≡ number_of_constants → IsState x → IsState y
        → permuted constants x ≡ permuted constants y → x ≡ y }
    ensures elements { (constants x : List ℕ) → length constants ≡ number_of_constants → IsState (permuted constants x) }
{}

/// The law of the text of the constants: it reads as these exactly where it is their 168 lines,
/// each the canonical decimal of an element and a line feed.
pub fn parameter_laws()
    ensures text { (text constants : List ℕ) → (parameters_of text ≡ Ok constants)
        ↔ ((text ≡ text_of constants) × (length constants ≡ number_of_constants) × AreElements constants) }
{}

/// The laws of the sponge: what one block more leaves in it, that `hashed` is what is squeezed
/// behind all blocks, and that this is four elements.
pub fn sponge_laws()
    ensures one_more { (constants state : List ℕ) (blocks : List (List ℕ)) (block : List ℕ)
        → sponge_after constants state (blocks ++ block ∷ [])
        ≡ absorbed constants (sponge_after constants state blocks) block }
    ensures digest { (constants : List ℕ) (domain : ℕ) (blocks : List (List ℕ))
        → hashed constants domain blocks ≡ squeezed (sponge_after constants (begun domain) blocks) }
    ensures elements { (constants : List ℕ) (domain : ℕ) (blocks : List (List ℕ))
        → length constants ≡ number_of_constants → 0 < length blocks → IsWord (hashed constants domain blocks) }
{}

fn crosses<T: Send + Sync>() {}

/// Constants, their refusals and sponges may be sent to other threads and read by several.
pub fn types_cross() {
    crosses::<Params>();
    crosses::<ParamError>();
    crosses::<Sponge>();
}
