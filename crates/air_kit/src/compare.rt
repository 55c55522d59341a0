ghost use Rattle.std.specs.Prelude.{◌≡◌, ◌↔◌, IsTrue};
ghost use Rattle.vm_field.specs.Signs.{◌⊟◌};

use vm_field::Felt;

/// Whether an element is 0.
pub fn is_zero(a: Felt) -> bool
    ensures { IsTrue result ↔ (a ≡ 0) }
{
    a.value() == 0
}

/// Whether it is 1.
pub fn is_one(a: Felt) -> bool
    ensures { IsTrue result ↔ (a ≡ 1) }
{
    a.value() == 1
}

/// Whether two elements are the same: their difference is 0 exactly then.
pub fn are_same(a: Felt, b: Felt) -> bool
    ensures { IsTrue result ↔ (a ⊟ b ≡ 0) }
{
    a.value() == b.value()
}
