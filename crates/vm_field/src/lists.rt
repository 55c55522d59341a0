ghost use Rattle.std.specs.Prelude.{◌≡◌, ◌↔◌, ℕ, ◌<◌, List, [], ◌∷◌, ◌++◌, length, slice_get, slice_index, All, IsTrue, OnOk, OnErr, IfOk};
ghost use Rattle.vm_field.specs.Field.{prime, AreElements};
ghost use Rattle.vm_field.specs.Machine.{IsWord};

use crate::element::Felt;
use crate::refusal::Memory;
use crate::word::Word;
use std::alloc::Global;
use std::marker::Model;

/// A list of elements.
#[derive(Debug, Drop)]
pub struct Felts {
    items: Vec<Felt>,
}

impl Model for Felts {
    ghost Value = { List ℕ };

    ghost view = { λ a. a.items.items };

    ghost invariant = { λ a. AreElements a.items.items };
}

impl Felts {
    /// The empty list. It allocates nothing.
    pub fn new(alloc: Global) -> Felts
        ensures empty { result ≡ [] }
    {
        Felts {
            items: Vec::new(alloc),
        }
    }

    /// The list of a vector's items. It allocates nothing.
    pub fn from_vec(items: Vec<Felt>) -> Felts
        ensures items { result ≡ items.items }
    {
        known_elements(items.as_slice());
        Felts { items }
    }

    /// A copy of these elements.
    pub fn copied(alloc: Global, elements: &[Felt]) -> Result<Felts, Memory>
        ensures items { IfOk result (λ copy. copy ≡ elements.now) }
    {
        known_elements(elements);
        Ok(Felts {
            items: Vec::from_slice(alloc, elements)?,
        })
    }

    /// Adds an element at the end. At `Memory` the list is as before.
    pub fn push(&mut self, x: Felt) -> Result<(), Memory>
        ensures ok { OnOk result (self.new ≡ self.old ++ x ∷ []) }
        ensures err { OnErr result (self.new ≡ self.old) }
    {
        let _ = x.value();
        self.items.push(x)?;
        Ok(())
    }

    /// The elements, in order.
    pub fn as_slice(&self) -> &[Felt]
        ensures items { result.now ≡ self.now }
        ensures below { AreElements result.now }
    {
        self.items.as_slice()
    }

    /// How many elements there are.
    pub fn len(&self) -> usize
        ensures count { result ≡ length self.now }
        ensures below { AreElements self.now }
    {
        self.items.len()
    }

    /// Whether there is none.
    pub fn is_empty(&self) -> bool
        ensures none { IsTrue result ↔ (self.now ≡ []) }
    {
        self.items.is_empty()
    }

    /// The element at a place.
    pub fn at(&self, i: usize) -> Felt
        requires { i < length self.now }
        ensures is { result ≡ slice_index self.now i }
        ensures below { result < prime }
    {
        felt_at(self.items.as_slice(), i)
    }
}

/// Reads each element, so that a proof learns that all are below 2^64 - 2^32 + 1. A run does
/// nothing.
pub fn known_elements(elements: &[Felt])
    ensures { AreElements elements.now }
{
    for element in elements {
        let _ = element.value();
    }
}

/// The element at a place of a slice.
pub fn felt_at(elements: &[Felt], i: usize) -> Felt
    requires { i < length elements.now }
    ensures is { result ≡ slice_index elements.now i }
    ensures below { result < prime }
{
    let element = elements[i];
    let _ = element.value();
    element
}

/// A list of bytes.
#[derive(Debug, Drop)]
pub struct Bytes {
    items: Vec<u8>,
}

impl Model for Bytes {
    ghost Value = { List ℕ };

    ghost view = { λ a. a.items.items };
}

impl Bytes {
    /// The empty list. It allocates nothing.
    pub fn new(alloc: Global) -> Bytes
        ensures empty { result ≡ [] }
    {
        Bytes {
            items: Vec::new(alloc),
        }
    }

    /// The list of a vector's items. It allocates nothing.
    pub fn from_vec(items: Vec<u8>) -> Bytes
        ensures items { result ≡ items.items }
    {
        Bytes { items }
    }

    /// A copy of these bytes.
    pub fn copied(alloc: Global, bytes: &[u8]) -> Result<Bytes, Memory>
        ensures items { IfOk result (λ copy. copy ≡ bytes.now) }
    {
        Ok(Bytes {
            items: Vec::from_slice(alloc, bytes)?,
        })
    }

    /// Adds a byte at the end. At `Memory` the list is as before.
    pub fn push(&mut self, x: u8) -> Result<(), Memory>
        ensures ok { OnOk result (self.new ≡ self.old ++ x ∷ []) }
        ensures err { OnErr result (self.new ≡ self.old) }
    {
        self.items.push(x)?;
        Ok(())
    }

    /// Adds bytes at the end. At `Memory` the list is as before.
    pub fn append(&mut self, more: &[u8]) -> Result<(), Memory>
        ensures ok { OnOk result (self.new ≡ self.old ++ more.now) }
        ensures err { OnErr result (self.new ≡ self.old) }
    {
        self.items.extend_from_slice(more)?;
        Ok(())
    }

    /// The bytes, in order.
    pub fn as_slice(&self) -> &[u8]
        ensures items { result.now ≡ self.now }
    {
        self.items.as_slice()
    }

    /// How many bytes there are.
    pub fn len(&self) -> usize
        ensures count { result ≡ length self.now }
    {
        self.items.len()
    }

    /// Whether there is none.
    pub fn is_empty(&self) -> bool
        ensures none { IsTrue result ↔ (self.now ≡ []) }
    {
        self.items.is_empty()
    }
}

/// A list of words.
#[derive(Debug, Drop)]
pub struct Words {
    items: Vec<Word>,
}

impl Model for Words {
    ghost Value = { List (List ℕ) };

    ghost view = { λ a. a.items.items };

    ghost invariant = { λ a. All IsWord a.items.items };
}

impl Words {
    /// The empty list. It allocates nothing.
    pub fn new(alloc: Global) -> Words
        ensures empty { result ≡ [] }
    {
        Words {
            items: Vec::new(alloc),
        }
    }

    /// The list of a vector's items. It allocates nothing.
    pub fn from_vec(items: Vec<Word>) -> Words
        ensures items { result ≡ items.items }
    {
        known_words(items.as_slice());
        Words { items }
    }

    /// A copy of these words.
    pub fn copied(alloc: Global, words: &[Word]) -> Result<Words, Memory>
        ensures items { IfOk result (λ copy. copy ≡ words.now) }
    {
        known_words(words);
        Ok(Words {
            items: Vec::from_slice(alloc, words)?,
        })
    }

    /// Adds a word at the end. At `Memory` the list is as before.
    pub fn push(&mut self, x: Word) -> Result<(), Memory>
        ensures ok { OnOk result (self.new ≡ self.old ++ x ∷ []) }
        ensures err { OnErr result (self.new ≡ self.old) }
    {
        x.known();
        self.items.push(x)?;
        Ok(())
    }

    /// The words, in order.
    pub fn as_slice(&self) -> &[Word]
        ensures items { result.now ≡ self.now }
        ensures words { All IsWord result.now }
    {
        self.items.as_slice()
    }

    /// How many words there are.
    pub fn len(&self) -> usize
        ensures count { result ≡ length self.now }
        ensures words { All IsWord self.now }
    {
        self.items.len()
    }

    /// Whether there is none.
    pub fn is_empty(&self) -> bool
        ensures none { IsTrue result ↔ (self.now ≡ []) }
    {
        self.items.is_empty()
    }

    /// The word at a place.
    pub fn at(&self, i: usize) -> Word
        requires { i < length self.now }
        ensures is { slice_get self.now i ≡ Some result }
        ensures four { length result ≡ 4 }
        ensures word { IsWord result }
    {
        let word = self.items[i];
        word.known();
        word
    }
}

/// Reads each word, so that a proof learns that all are words of elements below 2^64 - 2^32 + 1. A
/// run does nothing.
pub fn known_words(words: &[Word])
    ensures { All IsWord words.now }
{
    for word in words {
        word.known();
    }
}

impl PartialEq for Felts {
    ghost use Rattle.std.specs.Prelude.{nat_eq};
    ghost use Rattle.std.specs.Cmp.{partial_equiv_from_equiv};
    ghost use Rattle.std.proofs.lemmas.Cmp.{nat_list_eq_equiv, lists_equiv};
    ghost use lib.Pointwise.{pointwise};

    ghost eq = { pointwise nat_eq };

    ghost laws = { partial_equiv_from_equiv nat_list_eq_equiv };

    fn eq(&self, other: &Felts) -> bool {
        self.items == other.items
    }
}

impl Eq for Felts {
    ghost use Rattle.std.proofs.lemmas.Cmp.{nat_list_eq_equiv, lists_equiv};

    ghost laws = { nat_list_eq_equiv };
}

impl PartialEq for Bytes {
    ghost use Rattle.std.specs.Prelude.{nat_eq};
    ghost use Rattle.std.specs.Cmp.{partial_equiv_from_equiv};
    ghost use Rattle.std.proofs.lemmas.Cmp.{nat_list_eq_equiv, lists_equiv};
    ghost use lib.Pointwise.{pointwise};

    ghost eq = { pointwise nat_eq };

    ghost laws = { partial_equiv_from_equiv nat_list_eq_equiv };

    fn eq(&self, other: &Bytes) -> bool {
        self.items == other.items
    }
}

impl Eq for Bytes {
    ghost use Rattle.std.proofs.lemmas.Cmp.{nat_list_eq_equiv, lists_equiv};

    ghost laws = { nat_list_eq_equiv };
}

impl PartialEq for Words {
    ghost use Rattle.std.specs.Prelude.{nat_eq};
    ghost use Rattle.std.specs.Cmp.{partial_equiv_from_equiv};
    ghost use Rattle.std.proofs.lemmas.Cmp.{nat_list_eq_equiv, lists_equiv};
    ghost use lib.Pointwise.{pointwise};

    ghost eq = { pointwise (pointwise nat_eq) };

    ghost laws = { partial_equiv_from_equiv (lists_equiv nat_list_eq_equiv) };

    fn eq(&self, other: &Words) -> bool {
        self.items == other.items
    }
}

impl Eq for Words {
    ghost use Rattle.std.proofs.lemmas.Cmp.{nat_list_eq_equiv, lists_equiv};

    ghost laws = { lists_equiv nat_list_eq_equiv };
}
