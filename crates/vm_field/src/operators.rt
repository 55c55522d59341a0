use crate::element::Felt;
use std::ops::{Add, Mul, Neg, Sub};

impl Add for Felt {
    ghost use Rattle.std.specs.Prelude.{◌≡◌};
    ghost use Rattle.vm_field.specs.Field.{felt_add};

    type Output = Felt;

    ghost add_gives = { λ a b r. r ≡ felt_add a b };

    fn add(self, b: Felt) -> Felt {
        Felt::add(self, b)
    }
}

impl Sub for Felt {
    ghost use Rattle.std.specs.Prelude.{◌≡◌};
    ghost use Rattle.vm_field.specs.Field.{felt_sub};

    type Output = Felt;

    ghost sub_gives = { λ a b r. r ≡ felt_sub a b };

    fn sub(self, b: Felt) -> Felt {
        Felt::sub(self, b)
    }
}

impl Mul for Felt {
    ghost use Rattle.std.specs.Prelude.{◌≡◌};
    ghost use Rattle.vm_field.specs.Field.{felt_mul};

    type Output = Felt;

    ghost mul_gives = { λ a b r. r ≡ felt_mul a b };

    // In a table's entries the first factor is a flag, which is 0 or 1 in nearly every row: there none is computed.
    fn mul(self, b: Felt) -> Felt {
        match self.value() {
            0 => Felt::ZERO,
            1 => b,
            _ => Felt::mul(self, b),
        }
    }
}

impl Neg for Felt {
    ghost use Rattle.std.specs.Prelude.{◌≡◌};
    ghost use Rattle.vm_field.specs.Field.{felt_neg};

    type Output = Felt;

    ghost neg_gives = { λ a r. r ≡ felt_neg a };

    fn neg(self) -> Felt {
        Felt::neg(self)
    }
}
