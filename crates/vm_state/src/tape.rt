ghost use Rattle.std.specs.Prelude.{◌≡◌, ◌<◌, length, slice_index, IfOk, IfSome};
ghost use Rattle.vm_field.specs.Field.{AreElements, prime};
ghost use Rattle.vm_state.specs.Tapes.{Taken};

use std::alloc::Global;
use std::marker::Model;
use vm_field::{Felt, Memory, felt_at, known_elements};

// The advice that is left.
#[derive(Drop)]
pub(crate) struct Tape {
    // the next element last
    elements: Vec<Felt>,
}

impl Model for Tape {
    ghost use Rattle.std.specs.Prelude.{ℕ, List, reverse};

    ghost Value = { List ℕ };

    ghost view = { λ a. reverse a.elements.items };

    ghost use Rattle.vm_field.specs.Field.{AreElements};

    ghost invariant = { λ a. AreElements a.elements.items };
}

impl Tape {
    // A tape of these elements.
    pub fn holding(alloc: Global, elements: &[Felt]) -> Result<Tape, Memory>
        ensures elements { IfOk result (λ tape. tape ≡ elements.now) }
    {
        let mut elements = Vec::from_slice(alloc, elements)?;
        elements.reverse();
        known_elements(elements.as_slice());
        Ok(Tape { elements })
    }

    // They are elements.
    pub fn known(&self)
        ensures { AreElements self.now }
    {
        let _ = &self.elements;
    }

    // Takes the next element.
    pub fn next(&mut self) -> Option<Felt>
        ensures taken { Taken self.old result self.new }
        ensures below { IfSome result (λ element. element < prime) }
    {
        let element = self.elements.pop()?;
        let _ = element.value();
        Some(element)
    }

    // The element that is taken after so many others.
    pub fn at(&self, place: usize) -> Felt
        requires { place < length self.now }
        ensures is { result ≡ slice_index self.now place }
        ensures below { result < prime }
    {
        felt_at(self.elements.as_slice(), self.elements.len() - 1 - place)
    }

    // How many elements are left.
    pub fn len(&self) -> usize
        ensures { result ≡ length self.now }
    {
        self.elements.len()
    }
}
