ghost use Rattle.std.specs.Prelude.{◌≡◌, ℕ, ◌+◌, ◌-◌, ◌*◌, ◌%◌, ◌^◌, ◌<◌, ◌≤◌, ◌↔◌, IsErr, IfOk, IfSome, Some, decimal, string_bytes};
ghost use Rattle.std.specs.Result.{result_ok};
ghost use Rattle.vm_field.specs.Decimal.{element_of};
ghost use Rattle.vm_field.specs.Field.{prime, element_from, felt_add, felt_sub, felt_mul, felt_neg};

use crate::refusal::{Memory, NotCanonical};
use itoa::Buffer;
use std::alloc::Global;
use std::marker::Model;
use std::{fmt, str};

/// 2^64 - 2^32 + 1.
pub(crate) const PRIME: u64 = 18446744069414584321;

/// An element of the field of 2^64 - 2^32 + 1 elements, seen as its number.
#[derive(Clone, Copy, Debug, PartialEq, Eq, PartialOrd, Ord, Hash)]
pub struct Felt {
    number: u64,
}

impl Model for Felt {
    ghost use Rattle.std.specs.Prelude.{ℕ, ◌<◌};
    ghost use Rattle.vm_field.specs.Field.{prime};

    ghost Value = { ℕ };

    ghost view = { λ a. a.number };

    ghost invariant = { λ a. a.number < prime };

    ghost inverse = { λ n. record { number = n } };
}

impl Default for Felt {
    ghost is_default = { λ x. x ≡ 0 };

    fn default() -> Felt {
        Felt::ZERO
    }
}

impl Felt {
    /// The element 0.
    pub const ZERO: Felt = Felt { number: 0 };

    /// The element 1.
    pub const ONE: Felt = Felt { number: 1 };

    /// The element of this number, or a refusal exactly where the number is 2^64 - 2^32 + 1 or
    /// more.
    pub fn try_from_u64(v: u64) -> Result<Felt, NotCanonical>
        ensures value { IfOk result (λ x. x ≡ v) }
        ensures below { IfOk result (λ x. x < prime) }
        ensures refused { IsErr result ↔ (prime ≤ v) }
        ensures element { result_ok result ≡ element_from v }
    {
        if v < PRIME {
            Ok(Felt { number: v })
        } else {
            Err(NotCanonical)
        }
    }

    /// The element of a number of 32 bits.
    pub fn from_u32(v: u32) -> Felt
        ensures { result ≡ v }
    {
        Felt {
            number: u64::from(v),
        }
    }

    /// The element's number.
    pub fn value(self) -> u64
        ensures is { result ≡ self }
        ensures below { result < prime }
    {
        self.number
    }

    /// The sum.
    pub fn add(self, b: Felt) -> Felt
        ensures { result ≡ felt_add self b }
    {
        let room = PRIME - b.number;
        let number = if self.number < room {
            self.number + b.number
        } else {
            self.number - room
        };
        Felt { number }
    }

    /// The difference.
    pub fn sub(self, b: Felt) -> Felt
        ensures { result ≡ felt_sub self b }
    {
        let number = if b.number <= self.number {
            self.number - b.number
        } else {
            PRIME - (b.number - self.number)
        };
        Felt { number }
    }

    /// The element that gives 0 when it is added.
    pub fn neg(self) -> Felt
        ensures { result ≡ felt_neg self }
    {
        let number = if self.number == 0 {
            0
        } else {
            PRIME - self.number
        };
        Felt { number }
    }

    /// The element that a number is modulo 2^64 - 2^32 + 1, for a sum of small multiples of
    /// elements.
    pub fn reduced(number: u128) -> Felt
        requires { number < 2 ^ 96 }
        ensures is { result ≡ number % prime }
        ensures below { result < prime }
    {
        let low = (number % (1 << 64)) as u64;
        let high = (number / (1 << 64)) as u64;
        Felt {
            number: reduce_short(low, high),
        }
    }

    /// The product.
    pub fn mul(self, b: Felt) -> Felt
        ensures { result ≡ felt_mul self b }
    {
        Felt {
            number: reduce(self.number as u128 * b.number as u128),
        }
    }
}

// The remainder of a product of two elements. Modulo the prime, 2^64 is 2^32 - 1 and 2^96 is -1.
fn reduce(product: u128) -> u64
    requires { product ≤ (prime - 1) * (prime - 1) }
    ensures { result ≡ product % prime }
{
    let low = (product % (1 << 64)) as u64;
    let high = (product / (1 << 64)) as u64;
    let high_low = high % (1 << 32);
    let high_high = high / (1 << 32);
    let first = if high_high <= low {
        low - high_high
    } else {
        PRIME - (high_high - low)
    };
    reduce_short(first, high_low)
}

// The remainder of low + 2^64 high. Modulo the prime, 2^64 is 2^32 - 1.
fn reduce_short(low: u64, high: u64) -> u64
    requires { high < 2 ^ 32 }
    ensures { result ≡ (low + 2 ^ 64 * high) % prime }
{
    let second = high * 4294967295;
    let room = PRIME - second;
    if low < room { low + second } else { low - room }
}

impl fmt::Display for Felt {
    ghost use Rattle.std.specs.Prelude.{Some, decimal};

    ghost output = { λ x. Some (decimal x) };

    fn fmt<W: fmt::Write>(&self, f: &mut fmt::Formatter<W>) -> fmt::Result {
        let number = self.value();
        write!(f, "{number}")
    }
}

impl Felt {
    /// The number in decimal digits, with no leading zero.
    pub fn decimal(self, alloc: Global) -> Result<String, Memory>
        ensures text { IfOk result (λ text. string_bytes text ≡ decimal self) }
    {
        Ok(self.value().to_string(alloc)?)
    }

    /// The element that a canonical decimal writes: `0`, or digits with no leading zero, of a
    /// number below 2^64 - 2^32 + 1. None for any other text.
    pub fn read_decimal(text: &[u8]) -> Option<Felt>
        ensures value { result ≡ element_of text.now }
        ensures text { IfSome result (λ x. text.now ≡ decimal x) }
        ensures found { (n : ℕ) → n < prime → text.now ≡ decimal n → result ≡ Some n }
        ensures below { IfSome result (λ x. x < prime) }
    {
        let Ok(written) = str::from_utf8(text) else {
            return None;
        };
        let Ok(number) = written.parse::<u64>() else {
            return None;
        };

        // `parse` also takes a sign and leading zeros.
        if Buffer::new().format(number) == written {
            Felt::try_from_u64(number).ok()
        } else {
            None
        }
    }
}
