ghost use Rattle.std.specs.Prelude.{◌≡◌, ◌<◌, length, slice_index, IfOk, string_bytes};
ghost use Rattle.hex.specs.Hex.{encode_lower};
ghost use Rattle.vm_field.specs.Field.{prime};
ghost use Rattle.vm_field.specs.Machine.{IsWord};
ghost use Rattle.vm_field.specs.WordText.{word_hex, word_of_hex, element_of_hex};

use crate::element::Felt;
use crate::lists::known_elements;
use crate::refusal::Memory;
use std::alloc::Global;
use std::marker::Model;
use std::{fmt, str};

/// Four elements, as a digest or a word of memory has them. It is seen as the list of the four.
#[derive(Clone, Copy, Debug, PartialEq, Eq, PartialOrd, Ord, Hash)]
pub struct Word(pub [Felt; 4]);

impl Model for Word {
    ghost use Rattle.std.specs.Prelude.{◌≡◌, ℕ, List, length};

    ghost Value = { List ℕ };

    ghost view = { λ w. w.0 };

    ghost invariant = { λ w. length w.0 ≡ 4 };

    ghost inverse = { λ xs. record { 0 = xs } };
}

impl Word {
    /// Four zeros.
    pub const ZERO: Word = Word([Felt::ZERO; 4]);

    /// The element at a place below four.
    pub fn at(&self, i: usize) -> Felt
        requires { i < 4 }
        ensures is { result ≡ slice_index self.now i }
        ensures below { result < prime }
    {
        let elements = &self.0;
        let element = elements[i];
        let _ = element.value();
        element
    }

    /// The four elements.
    pub fn elements(&self) -> [Felt; 4]
        ensures { result ≡ self.now }
    {
        self.0
    }

    /// Reads the four elements, so that a proof learns that each is below 2^64 - 2^32 + 1. A run
    /// does nothing.
    pub fn known(&self)
        ensures { IsWord self.now }
    {
        known_elements(&self.0);
    }

    /// The word's text: sixteen lower-case hexadecimal digits for each element, the highest digit
    /// first.
    pub fn hex(&self, alloc: Global) -> Result<String, Memory>
        ensures text { IfOk result (λ text. string_bytes text ≡ word_hex self.now) }
    {
        Ok(hex::encode(alloc, &self.bytes())?)
    }

    /// The word that 64 hexadecimal digits of either case write, where each element is below
    /// 2^64 - 2^32 + 1. None for any other text.
    pub fn from_hex(text: &[u8]) -> Option<Word>
        ensures value { result ≡ word_of_hex text.now }
    {
        if text.len() != 64 {
            return None;
        }
        let first = element_from_hex(&text[..16])?;
        let second = element_from_hex(&text[16..32])?;
        let third = element_from_hex(&text[32..48])?;
        let fourth = element_from_hex(&text[48..64])?;
        Some(Word([first, second, third, fourth]))
    }

    // The word's text.
    fn digits(&self) -> [u8; 64]
        ensures { result ≡ word_hex self.now }
    {
        let mut digits = [0; 64];
        hex::encode_to_slice(&self.bytes(), &mut digits).unwrap();
        digits
    }

    // The elements' bytes, of each the highest first.
    fn bytes(&self) -> [u8; 32]
        ensures { encode_lower result ≡ word_hex self.now }
    {
        let [first, second, third, fourth] = self.0;
        let mut bytes = [0; 32];
        bytes[0..8].copy_from_slice(&first.value().to_be_bytes());
        bytes[8..16].copy_from_slice(&second.value().to_be_bytes());
        bytes[16..24].copy_from_slice(&third.value().to_be_bytes());
        bytes[24..32].copy_from_slice(&fourth.value().to_be_bytes());
        bytes
    }
}

// The element that sixteen hexadecimal digits write.
fn element_from_hex(digits: &[u8]) -> Option<Felt>
    requires { length digits.now ≡ 16 }
    ensures { result ≡ element_of_hex digits.now }
{
    let mut bytes = [0; 8];
    hex::decode_to_slice(digits, &mut bytes).ok()?;
    Felt::try_from_u64(u64::from_be_bytes(bytes)).ok()
}

impl fmt::Display for Word {
    ghost use Rattle.std.specs.Prelude.{Some};
    ghost use Rattle.vm_field.specs.Machine.{IsWord};
    ghost use Rattle.vm_field.specs.WordText.{word_hex};

    ghost output = { λ w. Some (word_hex w) };

    fn fmt<W: fmt::Write>(&self, f: &mut fmt::Formatter<W>) -> fmt::Result {
        let digits = self.digits();
        f.write_str(str::from_utf8(&digits).unwrap())
    }
}
