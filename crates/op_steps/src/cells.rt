ghost use Rattle.std.specs.Prelude.{◌≡◌, ◌≤◌, [], ◌∷◌, length, reverse, take};
ghost use Rattle.vm_ops.specs.Values.{bit_of, two_words};

use std::marker::Model;
use vm_field::Felt;

// The cells that an operation leaves on top of the stack, top first: at most sixteen.
#[derive(Drop)]
pub(crate) struct Cells {
    elements: [Felt; 16],
    count: usize,
}

impl Model for Cells {
    ghost use Rattle.std.specs.Prelude.{◌≡◌, ◌≤◌, ℕ, List, ◌++◌, length, take, drop, replicate};

    ghost Value = { List ℕ };

    ghost view = { λ a. take a.count a.elements };

    ghost invariant = { λ a. (length a.elements ≡ 16) × (a.count ≤ 16) };
}

impl Cells {
    // No cell.
    pub fn none() -> Cells
        ensures { result ≡ [] }
    {
        Cells {
            elements: [Felt::ZERO; 16],
            count: 0,
        }
    }

    // One cell.
    pub fn one(cell: Felt) -> Cells
        ensures { result ≡ cell ∷ [] }
    {
        Cells::of(&[cell])
    }

    // A cell of 1 where the test holds, else of 0.
    pub fn bit(test: bool) -> Cells
        ensures { result ≡ bit_of test ∷ [] }
    {
        Cells::one(if test { Felt::ONE } else { Felt::ZERO })
    }

    // These cells.
    pub fn of(cells: &[Felt]) -> Cells
        requires { length cells.now ≤ 16 }
        ensures { result ≡ cells.now }
    {
        let mut elements = [Felt::ZERO; 16];
        elements[..cells.len()].copy_from_slice(cells);
        Cells {
            elements,
            count: cells.len(),
        }
    }

    // The first so many of these.
    pub fn first_of(elements: [Felt; 16], count: usize) -> Cells
        requires { count ≤ 16 }
        ensures { result ≡ take count elements }
    {
        Cells { elements, count }
    }

    // The elements of a word, whose last one comes on top.
    pub fn of_word(word: [Felt; 4]) -> Cells
        ensures is { result ≡ reverse word }
        ensures count { length result ≡ 4 }
    {
        let [first, second, third, fourth] = word;
        Cells::of(&[fourth, third, second, first])
    }

    // The cells, top first.
    pub fn as_slice(&self) -> &[Felt]
        ensures is { result.now ≡ self.now }
        ensures few { length result.now ≤ 16 }
    {
        &self.elements[..self.count]
    }
}
