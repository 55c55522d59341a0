ghost use Rattle.std.specs.Prelude.{◌≡◌, [], ◌∷◌, drop, length, slice_get, OnOk, IfOk, option_map};

use std::alloc::Global;
use std::marker::Model;
use vm_field::{Felt, Felts, Memory};

/// A list that grows at its front, seen from there.
#[derive(Drop)]
pub struct Stack<T> {
    // the front last
    items: Vec<T>,
}

impl<T> Model for Stack<T> {
    ghost use Rattle.std.specs.Prelude.{List, reverse};

    ghost Value = { List T };

    ghost view = { λ a. reverse a.items.items };
}

impl<T> Stack<T> {
    /// The empty list. It allocates nothing.
    pub fn new(alloc: Global) -> Stack<T>
        ensures { result ≡ [] }
    {
        Stack {
            items: Vec::new(alloc),
        }
    }

    /// Puts an item at the front.
    pub fn push(&mut self, item: T) -> Result<(), Memory>
    where
        T: Drop,
        ensures { OnOk result (self.new ≡ item ∷ self.old) }
    {
        self.items.push(item)?;
        Ok(())
    }

    /// Takes off the front.
    pub fn pop(&mut self) -> Option<T>
        ensures item { result ≡ slice_get self.old 0 }
        ensures left { self.new ≡ drop 1 self.old }
    {
        self.items.pop()
    }

    /// How many items there are.
    pub fn len(&self) -> usize
        ensures { result ≡ length self.now }
    {
        self.items.len()
    }

    /// The front.
    pub fn first(&self) -> Option<&T>
        ensures { option_map (λ r. r.now) result ≡ slice_get self.now 0 }
    {
        self.items.last()
    }
}

/// The elements from the front on.
pub fn into_elements(stack: Stack<Felt>) -> Felts
    ensures { result ≡ stack }
{
    let mut items = stack.items;
    items.reverse();
    Felts::from_vec(items)
}
