ghost use Rattle.std.specs.Prelude.{◌≡◌, []};

use std::alloc::Global;
use std::marker::Model;
use vm_field::Felt;

/// Cells of a stack that were set aside, seen as their list, the highest first. They come back by
/// `State::bring_back`.
#[derive(Drop)]
pub struct Aside {
    // the highest last
    pub(crate) below: Vec<Felt>,
}

impl Model for Aside {
    ghost use Rattle.std.specs.Prelude.{ℕ, List, reverse};

    ghost Value = { List ℕ };

    ghost view = { λ a. reverse a.below.items };

    ghost use Rattle.vm_field.specs.Field.{AreElements};

    ghost invariant = { λ a. AreElements a.below.items };
}

impl Aside {
    /// No cells. It allocates nothing.
    pub fn none(alloc: Global) -> Aside
        ensures { result ≡ [] }
    {
        Aside {
            below: Vec::new(alloc),
        }
    }
}
