ghost use Rattle.std.specs.Prelude.{◌≡◌, ℕ, OnOk, OnErr};
ghost use Rattle.std.specs.FinMap as map;
ghost use Rattle.vm_field.specs.Machine.{IsWord, word_at};

use std::alloc::Global;
use std::collections::BTreeMap;
use std::marker::Model;
use vm_field::{Felt, Memory, Word};

// Words of memory by context and address. A word that was never written is zero.
#[derive(Drop)]
pub(crate) struct WordMemory {
    words: BTreeMap<(u32, u32), Word>,
}

impl Model for WordMemory {
    ghost use Rattle.std.specs.Prelude.{ℕ};
    ghost use Rattle.vm_field.specs.Machine.{IsWord, WordMap, word_at};
    ghost use Rattle.vm_state.specs.Memory.{words_code, words_of};

    ghost Value = { WordMap };

    ghost coded = { words_code };

    ghost view = { λ a. words_of a.words.entries };

    ghost invariant = { λ a. (context address : ℕ) → IsWord (word_at (words_of a.words.entries) context address) };
}

impl WordMemory {
    // No words.
    pub fn new(alloc: Global) -> WordMemory
        ensures empty { result ≡ map.empty }
    {
        WordMemory {
            words: BTreeMap::new(alloc),
        }
    }

    // There is a word at each place.
    pub fn known(&self)
        ensures { (context address : ℕ) → IsWord (word_at self.now context address) }
    {
        let _ = &self.words;
    }

    // The word at an address of a context.
    #[tactic(auto, using(crate::proofs::MemoryLemmas::memory_steps))]
    pub fn word_at(&self, context: u32, address: u32) -> [Felt; 4]
        ensures word { result ≡ word_at self.now context address }
        ensures below { IsWord result }
    {
        match self.words.get(&(context, address)) {
            Some(word) => {
                word.known();
                word.elements()
            }
            None => Word::ZERO.elements(),
        }
    }

    // Writes a word.
    #[tactic(auto, using(crate::proofs::MemoryLemmas::memory_steps))]
    pub fn store(&mut self, context: u32, address: u32, word: [Felt; 4]) -> Result<(), Memory>
        ensures ok { OnOk result (self.new ≡ map.insert self.old (context, address) word) }
        ensures err { OnErr result (self.new ≡ self.old) }
    {
        let word = Word(word);
        word.known();
        self.words.insert((context, address), word)?;
        Ok(())
    }
}
