ghost use Rattle.std.specs.Prelude.{◌≡◌, ℕ, ◌+◌, ◌-◌, ◌*◌, ◌^◌, ◌<◌, map, slice_index};
ghost use Rattle.vm_field.specs.Field.{prime, felt_mul, felt_pow, felt_inv, seventh_root};

use crate::element::{Felt, PRIME};
use crate::lists::known_elements;

impl Felt {
    /// The power to an exponent. 0 to the power 0 is 1.
    pub fn pow(self, e: u64) -> Felt
        ensures is { result ≡ felt_pow self e }
        ensures below { result < prime }
    {
        let mut base = self;
        let mut rest = e;
        let mut product = Felt::ONE;
        while rest > 0 {
            if rest % 2 == 1 {
                product = product.mul(base);
            }
            base = base.mul(base);
            rest /= 2;
        }
        product
    }

    /// The element whose product with this one is 1. There is none for 0.
    pub fn inv(self) -> Felt
        requires { 0 < self }
        ensures is { result ≡ felt_inv self }
        ensures inverse { felt_mul self result ≡ 1 }
        ensures below { result < prime }
    {
        let _ = self.value();
        let [inverse] = to_inverse_exponent(&[self]);
        inverse
    }

    /// The one element whose seventh power is this one.
    pub fn root7(self) -> Felt
        ensures is { result ≡ seventh_root self }
        ensures root { felt_pow result 7 ≡ self }
        ensures below { result < prime }
    {
        let [root] = roots7(&[self]);
        root
    }
}

/// The seventh roots of elements, one by one. Their powers are taken side by side, which is faster
/// than one after another.
pub fn roots7<const N: usize>(x: &[Felt; N]) -> [Felt; N]
    ensures { result ≡ map seventh_root x.now }
{
    known_elements(x);
    to_root_exponent(x)
}

// The powers to 10540996611094048183. With b for the number that ten blocks 100 write in binary,
// the exponent is 4 (2^32 b + 3 b) + 7, so 72 products do.
fn to_root_exponent<const N: usize>(x: &[Felt; N]) -> [Felt; N]
    ensures { (k : ℕ) → k < N
        → slice_index result k ≡ felt_pow (slice_index x.now k) 10540996611094048183 }
{
    let to_2 = products(x, x);
    let to_4 = products(&to_2, &to_2);
    let blocks_2 = squared_times(&to_4, 3, &to_4);
    let blocks_4 = squared_times(&blocks_2, 6, &blocks_2);
    let blocks_8 = squared_times(&blocks_4, 12, &blocks_4);
    let blocks_10 = squared_times(&blocks_8, 6, &blocks_2);
    let twice_10 = squared_times(&blocks_10, 31, &blocks_10);
    let high = squared_times(&twice_10, 1, &blocks_10);
    let to_6 = products(&to_4, &to_2);
    let low = products(&to_6, x);
    squared_times(&high, 2, &low)
}

// The powers to 18446744069414584319, which is the modulus less 2: 31 ones, a zero and 32 ones in binary,
// so 74 products do.
fn to_inverse_exponent<const N: usize>(x: &[Felt; N]) -> [Felt; N]
    ensures { (k : ℕ) → k < N
        → slice_index result k ≡ felt_pow (slice_index x.now k) 18446744069414584319 }
{
    let ones_2 = squared_times(x, 1, x);
    let ones_4 = squared_times(&ones_2, 2, &ones_2);
    let ones_8 = squared_times(&ones_4, 4, &ones_4);
    let ones_16 = squared_times(&ones_8, 8, &ones_8);
    let ones_24 = squared_times(&ones_16, 8, &ones_8);
    let ones_28 = squared_times(&ones_24, 4, &ones_4);
    let ones_30 = squared_times(&ones_28, 2, &ones_2);
    let ones_31 = squared_times(&ones_30, 1, x);
    let ones_32 = squared_times(&ones_31, 1, x);
    squared_times(&ones_31, 33, &ones_32)
}

// Powers to 2^n, times other elements.
fn squared_times<const N: usize>(x: &[Felt; N], n: u32, y: &[Felt; N]) -> [Felt; N]
    ensures { (k : ℕ) → k < N → slice_index result k
        ≡ felt_mul (felt_pow (slice_index x.now k) (2 ^ n)) (slice_index y.now k) }
{
    let mut powers = *x;
    for i in 0..n {
        powers = products(&powers, &powers);
    }
    products(&powers, y)
}

fn products<const N: usize>(x: &[Felt; N], y: &[Felt; N]) -> [Felt; N]
    ensures { (k : ℕ) → k < N
        → slice_index result k ≡ felt_mul (slice_index x.now k) (slice_index y.now k) }
{
    let mut products = *x;
    for i in 0..N {
        products[i] = x[i] * y[i];
    }
    products
}
