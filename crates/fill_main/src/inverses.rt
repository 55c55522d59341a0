ghost use Rattle.std.specs.Prelude.{◌≡◌, ◌<◌, [], All, IfSome};
ghost use Rattle.vm_field.specs.Field.{felt_inv, felt_mul};
ghost use Rattle.fill_main.specs.Inverses.{IsInverse};

use std::alloc::Global;
use vm_field::Felt;

// How many slots the table has: a power of two.
const SLOTS: usize = 8192;

/// Inverses that were computed: most rows ask for those of a few numbers. An element's slot is
/// always the same one, and holds the last element that came there.
#[derive(Drop)]
pub(crate) struct Inverses {
    // elements, each with its inverse
    slots: Vec<(Felt, Felt)>,
    // the element whose inverse was computed last, and how far it was from the one before
    last: Felt,
    step: Felt,
    ghost slots_right: { All IsInverse slots.items },
}

impl Inverses {
    ghost use Rattle.fill_main.specs.Kept.{pairs_of};

    /// No inverses yet. It allocates nothing.
    pub fn new(alloc: Global) -> Inverses
        ensures { pairs_of result ≡ [] }
    {
        Inverses {
            slots: Vec::new(alloc),
            last: Felt::ZERO,
            step: Felt::ZERO,
        }
    }

    /// The inverse of an element, and 0 for 0. It is kept for the next time where memory allows.
    pub fn inverse(&mut self, a: Felt) -> Felt
        ensures { result ≡ felt_inv a }
    {
        match kept(self.slots.as_slice(), a) {
            Some(inverse) => inverse,
            None => self.missed(a),
        }
    }

    // The inverse of an element that is not kept, which is kept from then on. A loop's counter asks for
    // one element after another in even steps, so that behind such a step the next three come with it.
    // It stays out of line, so that an inverse that is kept costs no more than its look-up.
    #[inline(never)]
    fn missed(&mut self, a: Felt) -> Felt
        ensures { result ≡ felt_inv a }
    {
        let step = a - self.last;
        let is_even = step == self.step;
        self.step = step;
        self.last = a;
        let (b, c, d) = (a + step, a + step + step, a + step + step + step);
        if is_even && 0 < a.value() && 0 < b.value() && 0 < c.value() && 0 < d.value() {
            return self.four(a, b, c, d);
        }
        let inverse = computed(a);
        keep(&mut self.slots, a, inverse);
        inverse
    }

    // The inverse of the first of four elements but 0. Those of all four are kept.
    fn four(&mut self, a: Felt, b: Felt, c: Felt, d: Felt) -> Felt
        requires a { 0 < a }
        requires b { 0 < b }
        requires c { 0 < c }
        requires d { 0 < d }
        ensures { result ≡ felt_inv a }
    {
        let (of_first, of_last) = parted(product(a, b), product(c, d));
        let (of_a, of_b) = factors(a, b, of_first);
        let (of_c, of_d) = factors(c, d, of_last);
        keep(&mut self.slots, a, of_a);
        keep(&mut self.slots, b, of_b);
        keep(&mut self.slots, c, of_c);
        keep(&mut self.slots, d, of_d);
        self.last = d;
        of_a
    }
}

// The product of two elements but 0, which is not 0 either.
#[tactic(auto, using(crate::proofs::InverseLemmas::product_positive))]
fn product(a: Felt, b: Felt) -> Felt
    requires first { 0 < a }
    requires second { 0 < b }
    ensures is { result ≡ felt_mul a b }
    ensures positive { 0 < result }
{
    let _ = (a.value(), b.value());
    a.mul(b)
}

// The inverses of two elements but 0, of whose product this is the inverse.
#[tactic(auto, using(crate::proofs::InverseLemmas::inverse_of_first, crate::proofs::InverseLemmas::inverse_of_second))]
fn factors(a: Felt, b: Felt, inverse: Felt) -> (Felt, Felt)
    requires first { 0 < a }
    requires second { 0 < b }
    requires inverse { inverse ≡ felt_inv (felt_mul a b) }
    ensures first { result.0 ≡ felt_inv a }
    ensures second { result.1 ≡ felt_inv b }
{
    let _ = (a.value(), b.value());
    (inverse.mul(b), inverse.mul(a))
}

// The inverses of two elements but 0, by one power.
fn parted(a: Felt, b: Felt) -> (Felt, Felt)
    requires first { 0 < a }
    requires second { 0 < b }
    ensures first { result.0 ≡ felt_inv a }
    ensures second { result.1 ≡ felt_inv b }
{
    factors(a, b, product(a, b).inv())
}

// The inverse of an element, and 0 for 0.
#[tactic(auto, using(crate::proofs::InverseLemmas::inverse_of_zero))]
fn computed(a: Felt) -> Felt
    ensures { result ≡ felt_inv a }
{
    if a.value() == 0 { Felt::ZERO } else { a.inv() }
}

// The inverse of an element, if it is kept.
fn kept(slots: &[(Felt, Felt)], a: Felt) -> Option<Felt>
    ensures { IfSome result (λ inverse. All IsInverse slots.now → inverse ≡ felt_inv a) }
{
    let place = place(a);
    if place < slots.len() && slots[place].0 == a {
        Some(slots[place].1)
    } else {
        None
    }
}

// Writes an element and its inverse to their slot. The first call makes the table, where memory
// allows.
fn keep(slots: &mut Vec<(Felt, Felt)>, a: Felt, inverse: Felt)
    requires { inverse ≡ felt_inv a }
    ensures { All IsInverse slots.old.items → All IsInverse slots.new.items }
{
    if slots.is_empty() {
        make(slots);
    }
    let place = place(a);
    if place < slots.len() {
        slots[place] = (a, inverse);
    }
}

// Makes the table, with 0 in each slot, which is its own inverse here.
#[tactic(auto, using(crate::proofs::InverseLemmas::inverse_of_zero))]
fn make(slots: &mut Vec<(Felt, Felt)>)
    ensures { All IsInverse slots.old.items → All IsInverse slots.new.items }
{
    let _ = slots.resize(SLOTS, (Felt::ZERO, Felt::ZERO));
}

// The slot of an element: the high bits of a product, which tell apart numbers that lie close.
fn place(a: Felt) -> usize {
    (a.value().wrapping_mul(0x9e37_79b9_7f4a_7c15) >> 51) as usize
}
