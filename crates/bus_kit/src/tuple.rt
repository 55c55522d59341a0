ghost use Rattle.std.specs.Prelude.{◌≡◌, ◌≤◌, length};
ghost use Rattle.vm_field.specs.Field.{AreElements};
ghost use Rattle.bus_kit.specs.Scanning.{lesser_told};

use arrayvec::ArrayVec;
use std::cmp::Ordering;
use std::marker::Model;
use vm_field::{Felt, known_elements};

/// At most fourteen elements, seen as their list. It takes no memory. Tuples are ordered element by
/// element, and one that another begins with is the less.
#[derive(Debug, Drop)]
pub struct Tuple {
    elements: ArrayVec<Felt, 14>,
}

impl Model for Tuple {
    ghost use Rattle.std.specs.Prelude.{ℕ, List};

    ghost Value = { List ℕ };

    ghost use Rattle.std.specs.Prelude.{◌≤◌, length};
    ghost use Rattle.vm_field.specs.Field.{AreElements};

    ghost view = { λ a. a.elements.items };

    ghost invariant = { λ a. (length a.elements.items ≤ 14) × AreElements a.elements.items };
}

/// A tuple that was not asked as often as it was given.
#[derive(Debug, Drop)]
pub struct Unequal {
    /// The tuple.
    pub tuple: Tuple,
    /// How often it was asked.
    pub asked: u128,
    /// How often it was given.
    pub given: u128,
}

impl Tuple {
    /// The tuple of these elements.
    pub fn of(elements: &[Felt]) -> Tuple
        requires { length elements.now ≤ 14 }
        ensures { result ≡ elements.now }
    {
        known_elements(elements);
        Tuple {
            elements: ArrayVec::try_from(elements).unwrap(),
        }
    }

    /// The elements, in order.
    pub fn as_slice(&self) -> &[Felt]
        ensures elements { result.now ≡ self.now }
        ensures below { AreElements result.now }
        ensures few { length result.now ≤ 14 }
    {
        self.elements.as_slice()
    }
}

impl PartialEq for Tuple {
    ghost use Rattle.std.specs.Prelude.{nat_eq};
    ghost use Rattle.std.specs.Cmp.{partial_equiv_from_equiv};
    ghost use Rattle.std.proofs.lemmas.Cmp.{nat_list_eq_equiv};
    ghost use lib.Pointwise.{pointwise};

    ghost eq = { pointwise nat_eq };

    ghost laws = { partial_equiv_from_equiv nat_list_eq_equiv };

    fn eq(&self, other: &Tuple) -> bool {
        self.elements == other.elements
    }
}

impl Eq for Tuple {
    ghost use Rattle.std.proofs.lemmas.Cmp.{nat_list_eq_equiv};

    ghost laws = { nat_list_eq_equiv };
}

impl PartialOrd for Tuple {
    ghost use Rattle.std.specs.Prelude.{Some};
    ghost use Rattle.std.specs.Ordering.{nat_cmp};
    ghost use Rattle.std.specs.Cmp.Lexicographic.{slice_cmp, texts_po};

    ghost partial_cmp = { λ xs ys. Some (slice_cmp nat_cmp xs ys) };

    ghost laws = { texts_po };

    fn partial_cmp(&self, other: &Tuple) -> Option<Ordering> {
        Some(self.cmp(other))
    }
}

impl Ord for Tuple {
    ghost use Rattle.std.specs.Prelude.{refl};
    ghost use Rattle.std.specs.Ordering.{nat_cmp};
    ghost use Rattle.std.specs.Cmp.Lexicographic.{slice_cmp, texts_ties};
    ghost use Rattle.std.proofs.lemmas.Cmp.{nat_list_cmp_total};

    ghost cmp = { slice_cmp nat_cmp };

    ghost total = { nat_list_cmp_total };

    ghost matches_partial_cmp = { λ xs ys. refl };

    ghost matches_eq = { texts_ties };

    fn cmp(&self, other: &Tuple) -> Ordering {
        self.elements.cmp(&other.elements)
    }
}

impl Unequal {
    /// The one with the lesser tuple, if there is one.
    pub fn lesser(first: Option<Unequal>, second: Option<Unequal>) -> Option<Unequal>
        ensures { result ≡ lesser_told first second }
    {
        match (first, second) {
            (None, second) => second,
            (first, None) => first,
            (Some(x), Some(y)) => Some(if y.tuple.cmp(&x.tuple) == Ordering::Less {
                y
            } else {
                x
            }),
        }
    }
}
