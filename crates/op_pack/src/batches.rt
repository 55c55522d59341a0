ghost use Rattle.std.specs.Prelude.{◌≡◌, ◌<◌, [], ◌∷◌, ◌++◌, length, slice_get, Some, OnOk, OnErr, IfOk, All};

use std::alloc::Global;
use std::marker::Model;
use vm_field::{Felt, Memory};

/// A list of batches of eight elements each. It is never empty.
#[derive(Drop)]
pub struct Batches {
    items: Vec<[Felt; 8]>,
}

impl Model for Batches {
    ghost use Rattle.std.specs.Prelude.{◌≡◌, ◌<◌, ℕ, List, length, All};

    ghost Value = { List (List ℕ) };

    ghost view = { λ a. a.items.items };

    ghost invariant = { λ a. (0 < length a.items.items) × All (λ batch. length batch ≡ 8) a.items.items };
}

impl Batches {
    /// The list of one batch.
    pub fn of(alloc: Global, first: [Felt; 8]) -> Result<Batches, Memory>
        ensures one { IfOk result (λ batches. batches ≡ first ∷ []) }
    {
        Ok(Batches {
            items: Vec::from_slice(alloc, &[first])?,
        })
    }

    /// A copy of these batches.
    pub fn copy(&self, alloc: Global) -> Result<Batches, Memory>
        ensures same { IfOk result (λ copy. copy ≡ self.now) }
    {
        Ok(Batches {
            items: Vec::from_slice(alloc, self.items.as_slice())?,
        })
    }

    /// Adds a batch at the end. At `Memory` the list is as before.
    pub fn push(&mut self, batch: [Felt; 8]) -> Result<(), Memory>
        ensures ok { OnOk result (self.new ≡ self.old ++ batch ∷ []) }
        ensures err { OnErr result (self.new ≡ self.old) }
    {
        self.items.push(batch)?;
        Ok(())
    }

    /// The batches, in order.
    pub fn as_slice(&self) -> &[[Felt; 8]]
        ensures items { result.now ≡ self.now }
        ensures some { 0 < length self.now }
        ensures eight { All (λ batch. length batch ≡ 8) self.now }
    {
        self.items.as_slice()
    }

    /// How many batches there are.
    pub fn len(&self) -> usize
        ensures count { result ≡ length self.now }
        ensures some { 0 < result }
    {
        self.items.len()
    }

    /// The batch at a place.
    pub fn at(&self, i: usize) -> &[Felt; 8]
        requires { i < length self.now }
        ensures is { slice_get self.now i ≡ Some result.now }
        ensures eight { length result.now ≡ 8 }
    {
        &self.items[i]
    }
}
