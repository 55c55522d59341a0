ghost use Rattle.std.specs.Prelude.{◌≡◌, ◌≢◌, ◌⊎◌, ℕ, ◌%◌, ◌<◌, List, length, All, Some, decimal};
ghost use Rattle.std.specs.FinMap.{insert};
ghost use Rattle.std.specs.Str.{str_to_ascii_lowercase};
ghost use Rattle.vm_field.specs.Decimal.{element_of};
ghost use Rattle.vm_field.specs.Field.{prime, AreElements, felt_mul, felt_pow, felt_inv, seventh_root};
ghost use Rattle.vm_field.specs.Machine.{IsWellFormed, IsWord, WordMap, start, word_at};
ghost use Rattle.vm_field.specs.WordText.{word_hex, word_of_hex};

use crate::element::Felt;
use crate::lists::{Bytes, Felts, Words};
use crate::sequence::Sequence;
use crate::word::Word;

/// The laws of the field: the modulus is prime, a product is 0 only where a factor is, each
/// element other than 0 has an inverse, and each element has exactly one seventh root.
pub fn field_laws()
    ensures no_divisor { (d : ℕ) → 1 < d → d < prime → prime % d ≢ 0 }
    ensures power { (a : ℕ) → a < prime → felt_pow a prime ≡ a }
    ensures product { (a b : ℕ) → a < prime → b < prime → felt_mul a b ≡ 0 → (a ≡ 0) ⊎ (b ≡ 0) }

    ensures inverse { (a : ℕ) → 0 < a → a < prime → felt_mul a (felt_inv a) ≡ 1 }
    ensures inverse_below { (a : ℕ) → 0 < a → a < prime → felt_inv a < prime }

    ensures root { (x : ℕ) → x < prime → felt_pow (seventh_root x) 7 ≡ x }
    ensures root_below { (x : ℕ) → x < prime → seventh_root x < prime }
    ensures root_unique { (x y : ℕ) → x < prime → y < prime → felt_pow y 7 ≡ x
        → y ≡ seventh_root x }
{}

/// The laws of the texts: what was written is read as it was, and what is read is the text of what
/// it gives; a word's text may be in either case, and is written in lower case.
pub fn text_laws()
    ensures decimal_read { (n : ℕ) → n < prime → element_of (decimal n) ≡ Some n }
    ensures decimal_written { (text : List ℕ) (n : ℕ) → element_of text ≡ Some n
        → (text ≡ decimal n) × (n < prime) }

    ensures word_read { (w : List ℕ) → length w ≡ 4 → All (λ e. e < prime) w
        → word_of_hex (word_hex w) ≡ Some w }
    ensures word_written { (text w : List ℕ) → word_of_hex text ≡ Some w
        → word_hex w ≡ str_to_ascii_lowercase text }
    ensures word_elements { (text w : List ℕ) → word_of_hex text ≡ Some w
        → (length w ≡ 4) × All (λ e. e < prime) w }
{}

/// The laws of the machine's states: a run starts in one, a memory is made of words, a word that is
/// written is read at its place, and at each other place what was there before.
pub fn machine_laws()
    ensures start { (inputs tape : List ℕ) → AreElements inputs → AreElements tape
        → IsWellFormed (start inputs tape) }

    ensures words { (memory : WordMap) (place : ℕ × ℕ) (word : List ℕ) → IsWord word
        → ((context address : ℕ) → IsWord (word_at memory context address))
        → (context address : ℕ) → IsWord (word_at (insert memory place word) context address) }
    ensures written { (memory : WordMap) (context address : ℕ) (word : List ℕ)
        → word_at (insert memory (context, address) word) context address ≡ word }
    ensures others { (memory : WordMap) (place : ℕ × ℕ) (word : List ℕ) (context address : ℕ)
        → (context, address) ≢ place
        → word_at (insert memory place word) context address ≡ word_at memory context address }
{}

fn crosses<T: Send + Sync>() {}

/// Elements, words and lists may be sent to other threads and read by several.
pub fn types_cross() {
    crosses::<Felt>();
    crosses::<Word>();
    crosses::<Felts>();
    crosses::<Words>();
    crosses::<Bytes>();
    crosses::<Sequence<Word>>();
}
