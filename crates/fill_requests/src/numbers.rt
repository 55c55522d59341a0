ghost use Rattle.std.specs.Prelude.{◌≡◌, ◌^◌, ◌<◌};

use vm_field::Felt;

// An element of 32 bits as a number.
pub(crate) fn u32_of(element: Felt) -> u32
    requires { element < 2 ^ 32 }
    ensures { result ≡ element }
{
    element.value() as u32
}

// An element of 16 bits as a number.
pub(crate) fn u16_of(element: Felt) -> u16
    requires { element < 2 ^ 16 }
    ensures { result ≡ element }
{
    element.value() as u16
}
