ghost use Rattle.std.specs.Prelude.{◌≡◌, ◌↔◌, [], ◌∷◌, ◌++◌, length, IsTrue, OnOk, OnErr};

use std::alloc::Global;
use std::marker::Model;
use vm_field::{Bytes, Memory, Word};

/// A kernel procedure that programs may call: its name and the digest of its tree.
#[derive(Drop)]
pub struct Export {
    pub name: Bytes,
    pub digest: Word,
}

/// A list of exports, in the order of the source.
#[derive(Drop)]
pub struct Exports {
    items: Vec<Export>,
}

impl Model for Exports {
    ghost use Rattle.std.specs.Prelude.{List};
    ghost use Rattle.block_tree.specs.declared.exports.Export.{Export};

    ghost Value = { List Export };

    ghost view = { λ a. a.items.items };
}

impl Exports {
    /// The empty list. It allocates nothing.
    pub fn new(alloc: Global) -> Exports
        ensures empty { result ≡ [] }
    {
        Exports {
            items: Vec::new(alloc),
        }
    }

    /// The list of a vector's items. It allocates nothing.
    pub fn from_vec(items: Vec<Export>) -> Exports
        ensures items { result ≡ items.items }
    {
        Exports { items }
    }

    /// Adds an export at the end. At `Memory` the list is as before.
    pub fn push(&mut self, x: Export) -> Result<(), Memory>
        ensures ok { OnOk result (self.new ≡ self.old ++ x ∷ []) }
        ensures err { OnErr result (self.new ≡ self.old) }
    {
        self.items.push(x)?;
        Ok(())
    }

    /// How many exports there are.
    pub fn len(&self) -> usize
        ensures count { result ≡ length self.now }
    {
        self.items.len()
    }

    /// Whether there is none.
    pub fn is_empty(&self) -> bool
        ensures none { IsTrue result ↔ (self.now ≡ []) }
    {
        self.items.is_empty()
    }

    /// The exports, in order.
    pub fn as_slice(&self) -> &[Export]
        ensures items { result.now ≡ self.now }
    {
        self.items.as_slice()
    }
}
