ghost use Rattle.std.specs.Prelude.{◌≡◌, ℕ, List, option_map};
ghost use Rattle.air_kit.specs.ChipPlaces.{in_last, only};
ghost use Rattle.air_kit.specs.HasherValues.{bit_value};

use vm_field::Felt;

/// The value where the test holds, else 0.
pub fn only(test: bool, value: Felt) -> Felt
    ensures { result ≡ only test value }
{
    if test { value } else { Felt::ZERO }
}

/// 0 exactly where the element is 0 or 1.
pub fn bit_value(a: Felt) -> Felt
    ensures { result ≡ bit_value a }
{
    a * (a - Felt::ONE)
}

/// The value where no row follows, else 0.
pub fn in_last<T>(value: Felt, next: &Option<T>) -> Felt
    ensures { (cells : T → List ℕ) → result ≡ in_last value (option_map cells next.now) }
{
    match next {
        Some(_) => Felt::ZERO,
        None => value,
    }
}
