ghost use Rattle.std.specs.Prelude.{◌≡◌, ◌↔◌, [], ◌∷◌, ◌++◌, length, IsTrue, OnOk, OnErr};
ghost use Rattle.vm_ops.specs.Items.{plain_item, push_item};

use crate::op::Op;
use std::alloc::Global;
use std::marker::Model;
use vm_field::{Felt, Memory};

/// An operation of a list, with the immediate that PUSH has.
#[derive(Clone, Copy, Debug, PartialEq, Eq)]
pub struct Item {
    pub op: Op,
    pub imm: Option<Felt>,
}

impl Item {
    /// An operation with no immediate.
    pub fn plain(op: Op) -> Item
        ensures { result ≡ plain_item op }
    {
        Item { op, imm: None }
    }

    /// PUSH of an element.
    pub fn push(value: Felt) -> Item
        ensures { result ≡ push_item value }
    {
        Item {
            op: Op::Push,
            imm: Some(value),
        }
    }
}

/// A list of operations with their immediates.
#[derive(Drop)]
pub struct Items {
    items: Vec<Item>,
}

impl Model for Items {
    ghost use Rattle.std.specs.Prelude.{List};
    ghost use Rattle.vm_ops.specs.declared.item.Item.{Item};

    ghost Value = { List Item };

    ghost view = { λ a. a.items.items };
}

impl Items {
    /// The empty list. It allocates nothing.
    pub fn new(alloc: Global) -> Items
        ensures empty { result ≡ [] }
    {
        Items {
            items: Vec::new(alloc),
        }
    }

    /// The list of a vector's items. It allocates nothing.
    pub fn from_vec(items: Vec<Item>) -> Items
        ensures items { result ≡ items.items }
    {
        Items { items }
    }

    /// Adds an item at the end. At `Memory` the list is as before.
    pub fn push(&mut self, x: Item) -> Result<(), Memory>
        ensures ok { OnOk result (self.new ≡ self.old ++ x ∷ []) }
        ensures err { OnErr result (self.new ≡ self.old) }
    {
        self.append(&[x])
    }

    /// Adds items at the end. At `Memory` the list is as before.
    pub fn append(&mut self, more: &[Item]) -> Result<(), Memory>
        ensures ok { OnOk result (self.new ≡ self.old ++ more.now) }
        ensures err { OnErr result (self.new ≡ self.old) }
    {
        self.items.extend_from_slice(more)?;
        Ok(())
    }

    /// How many items there are.
    pub fn len(&self) -> usize
        ensures { result ≡ length self.now }
    {
        self.items.len()
    }

    /// Whether there is none.
    pub fn is_empty(&self) -> bool
        ensures { IsTrue result ↔ (self.now ≡ []) }
    {
        self.items.is_empty()
    }

    /// The items, in order.
    pub fn as_slice(&self) -> &[Item]
        ensures items { result.now ≡ self.now }
    {
        self.items.as_slice()
    }
}
