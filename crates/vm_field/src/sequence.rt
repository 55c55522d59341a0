ghost use Rattle.std.specs.Prelude.{◌≡◌, ◌↔◌, ◌<◌, [], ◌∷◌, ◌++◌, length, slice_get, IsTrue, OnOk, OnErr, IfOk, Some};

use crate::refusal::Memory;
use std::alloc::Global;
use std::marker::Model;

/// A list, seen as the list of its items' values.
#[derive(Debug, Drop)]
pub struct Sequence<T> {
    items: Vec<T>,
}

impl<T> Model for Sequence<T> {
    ghost use Rattle.std.specs.Prelude.{List};

    ghost Value = { List T };

    ghost view = { λ a. a.items.items };
}

impl<T> Sequence<T> {
    /// The empty list. It allocates nothing.
    pub fn new(alloc: Global) -> Sequence<T>
        ensures empty { result ≡ [] }
    {
        Sequence {
            items: Vec::new(alloc),
        }
    }

    /// The list of a vector's items. It allocates nothing.
    pub fn from_vec(items: Vec<T>) -> Sequence<T>
        ensures items { result ≡ items.items }
    {
        Sequence { items }
    }

    /// A copy of these items.
    pub fn copied(alloc: Global, items: &[T]) -> Result<Sequence<T>, Memory>
    where
        T: Copy,
        ensures items { IfOk result (λ copy. copy ≡ items.now) }
    {
        Ok(Sequence {
            items: Vec::from_slice(alloc, items)?,
        })
    }

    /// Adds an item at the end. At `Memory` the list is as before, and the item is dropped.
    pub fn push(&mut self, item: T) -> Result<(), Memory>
    where
        T: Drop,
        ensures ok { OnOk result (self.new ≡ self.old ++ item ∷ []) }
        ensures err { OnErr result (self.new ≡ self.old) }
    {
        self.items.push(item)?;
        Ok(())
    }

    /// Adds copies of items at the end. At `Memory` the list is as before.
    pub fn append(&mut self, more: &[T]) -> Result<(), Memory>
    where
        T: Copy,
        ensures ok { OnOk result (self.new ≡ self.old ++ more.now) }
        ensures err { OnErr result (self.new ≡ self.old) }
    {
        self.items.extend_from_slice(more)?;
        Ok(())
    }

    /// The items, in order.
    pub fn as_slice(&self) -> &[T]
        ensures items { result.now ≡ self.now }
    {
        self.items.as_slice()
    }

    /// How many items there are.
    pub fn len(&self) -> usize
        ensures count { result ≡ length self.now }
    {
        self.items.len()
    }

    /// Whether there is none.
    pub fn is_empty(&self) -> bool
        ensures none { IsTrue result ↔ (self.now ≡ []) }
    {
        self.items.is_empty()
    }

    /// The item at a place.
    pub fn at(&self, i: usize) -> &T
        requires { i < length self.now }
        ensures is { slice_get self.now i ≡ Some result.now }
    {
        &self.items[i]
    }
}
