//! The product of the permutation's matrix and a state by real Fourier transforms of length four, as
//! in Plonky2's Poseidon and Winterfell's Rescue Prime. The matrix is circulant, so that each
//! frequency of the product comes from the same frequency of the state, and this matrix has small
//! whole numbers there. The low and the high 32 bits of the elements go through apart, so that all
//! sums fit 64 bits.
ghost use Rattle.std.specs.Prelude.{◌≡◌, ℕ, ◌+◌, ◌*◌, ◌/◌, ◌%◌, ◌^◌, ◌<◌, ◌≤◌};
ghost use Rattle.rpo_hash.specs.Frequencies.{AreHalves, AreHigh, AreLarger, AreLow, AreRaised, AreRows, AreSmall, IsRaised, all_joined, joined};
ghost use Rattle.vm_field.specs.Field.{prime};

use vm_field::Felt;

// Each difference of sums of two halves is raised by this, so that none is negative.
const RAISE: u64 = 1 << 33;

// All rows of the product come out raised by 27 times that, in the low halves and in the high ones.
const RAISED: u128 = 27 * RAISE as u128 * ((1 << 32) + 1);

/// Every third of twelve numbers.
#[derive(Clone, Copy)]
pub(crate) struct Four {
    pub(crate) first: u64,
    pub(crate) second: u64,
    pub(crate) third: u64,
    pub(crate) fourth: u64,
}

/// Twelve numbers, by their places modulo three.
#[derive(Clone, Copy)]
pub(crate) struct Thirds {
    pub(crate) zero: Four,
    pub(crate) one: Four,
    pub(crate) two: Four,
}

/// The Fourier transform of four real numbers: their sum, their sum with the powers of -i, which is
/// complex, and their sum with the powers of -1. All but the first are raised.
#[derive(Clone, Copy)]
struct Frequencies {
    sum: u64,
    real: u64,
    imaginary: u64,
    alternating: u64,
}

/// The low 32 bits of four elements.
#[inline(always)]
pub(crate) fn low_halves(first: Felt, second: Felt, third: Felt, fourth: Felt) -> Four
    ensures are { AreLow result first second third fourth }
    ensures halves { AreHalves result }
{
    Four {
        first: first.value() % (1 << 32),
        second: second.value() % (1 << 32),
        third: third.value() % (1 << 32),
        fourth: fourth.value() % (1 << 32),
    }
}

/// The high 32 bits of four elements.
#[inline(always)]
pub(crate) fn high_halves(first: Felt, second: Felt, third: Felt, fourth: Felt) -> Four
    ensures are { AreHigh result first second third fourth }
    ensures halves { AreHalves result }
{
    Four {
        first: first.value() / (1 << 32),
        second: second.value() / (1 << 32),
        third: third.value() / (1 << 32),
        fourth: fourth.value() / (1 << 32),
    }
}

/// The matrix times twelve numbers of 32 bits, raised.
#[inline(always)]
pub(crate) fn product(x: Thirds) -> Thirds
    requires zero { AreHalves x.zero }
    requires one { AreHalves x.one }
    requires two { AreHalves x.two }
    ensures rows { AreRows result x.zero.first x.one.first x.two.first x.zero.second x.one.second x.two.second
        x.zero.third x.one.third x.two.third x.zero.fourth x.one.fourth x.two.fourth }
    ensures raised { AreRaised result }
{
    let zero = to_frequencies(x.zero);
    let one = to_frequencies(x.one);
    let two = to_frequencies(x.two);
    Thirds {
        zero: from_frequencies(product_zero(zero, one, two)),
        one: from_frequencies(product_one(zero, one, two)),
        two: from_frequencies(product_two(zero, one, two)),
    }
}

/// The elements of raised rows of low halves and of high ones.
#[inline(always)]
pub(crate) fn all_joined(low: Thirds, high: Thirds) -> [Felt; 12]
    requires low { AreRaised low }
    requires high { AreRaised high }
    ensures { result ≡ all_joined low high }
{
    [
        joined(low.zero.first, high.zero.first),
        joined(low.one.first, high.one.first),
        joined(low.two.first, high.two.first),
        joined(low.zero.second, high.zero.second),
        joined(low.one.second, high.one.second),
        joined(low.two.second, high.two.second),
        joined(low.zero.third, high.zero.third),
        joined(low.one.third, high.one.third),
        joined(low.two.third, high.two.third),
        joined(low.zero.fourth, high.zero.fourth),
        joined(low.one.fourth, high.one.fourth),
        joined(low.two.fourth, high.two.fourth),
    ]
}

#[inline(always)]
fn joined(low: u64, high: u64) -> Felt
    requires low { IsRaised low }
    requires high { IsRaised high }
    ensures { result ≡ joined low high }
{
    Felt::reduced(u128::from(low) + u128::from(high) * (1 << 32) - RAISED)
}

// The transform of four numbers of 32 bits.
#[inline(always)]
fn to_frequencies(x: Four) -> Frequencies
    requires { AreHalves x }
    ensures sum { result.sum ≡ x.first + x.second + x.third + x.fourth }
    ensures real { result.real + x.third ≡ x.first + RAISE }
    ensures imaginary { result.imaginary + x.second ≡ x.fourth + RAISE }
    ensures alternating { result.alternating + x.second + x.fourth ≡ x.first + x.third + RAISE }
    ensures small { AreSmall result }
{
    let even = x.first + x.third;
    let odd = x.second + x.fourth;
    Frequencies {
        sum: even + odd,
        real: x.first + RAISE - x.third,
        imaginary: x.fourth + RAISE - x.second,
        alternating: even + RAISE - odd,
    }
}

// The inverse transform, but with no division by four: the matrix's frequencies below are divided by
// four already.
#[inline(always)]
fn from_frequencies(x: Frequencies) -> Four
    requires { AreLarger x }
    ensures first { result.first ≡ x.sum + x.alternating + x.real }
    ensures second { result.second + x.alternating + x.imaginary ≡ x.sum + 54 * RAISE }
    ensures third { result.third + x.real ≡ x.sum + x.alternating + 34 * RAISE }
    ensures fourth { result.fourth + x.alternating ≡ x.sum + x.imaginary + 20 * RAISE }
{
    let even = x.sum + x.alternating;
    let odd = x.sum + 20 * RAISE - x.alternating;
    Four {
        first: even + x.real,
        second: odd + 34 * RAISE - x.imaginary,
        third: even + 34 * RAISE - x.real,
        fourth: odd + x.imaginary,
    }
}

// The transform of the product's rows 0, 3, 6 and 9. The matrix's frequencies, divided by four, are
// 16, 8 and 16, then -1 + 2i, -1 + i and 4 + 8i, then -8, 1 and 1. What passes the last row comes in
// again one row of the four on, which is times 1, times -i and times -1.
#[inline(always)]
fn product_zero(x: Frequencies, y: Frequencies, z: Frequencies) -> Frequencies
    requires x { AreSmall x }
    requires y { AreSmall y }
    requires z { AreSmall z }
    ensures sum { result.sum ≡ 16 * x.sum + 16 * y.sum + 8 * z.sum }
    ensures real { result.real + x.real + 2 * x.imaginary + z.imaginary
        ≡ 8 * y.real + 4 * y.imaginary + z.real + 8 * RAISE }
    ensures imaginary { result.imaginary + x.imaginary + 4 * y.real
        ≡ 2 * x.real + 8 * y.imaginary + z.real + z.imaginary + 10 * RAISE }
    ensures alternating { result.alternating + 8 * x.alternating + y.alternating + z.alternating ≡ 20 * RAISE }
    ensures larger { AreLarger result }
{
    Frequencies {
        sum: 16 * x.sum + 16 * y.sum + 8 * z.sum,
        real: 8 * y.real + 4 * y.imaginary + z.real + 8 * RAISE
            - (x.real + 2 * x.imaginary + z.imaginary),
        imaginary: 2 * x.real + 8 * y.imaginary + z.real + z.imaginary + 10 * RAISE
            - (x.imaginary + 4 * y.real),
        alternating: 20 * RAISE - (8 * x.alternating + y.alternating + z.alternating),
    }
}

// The transform of the product's rows 1, 4, 7 and 10.
#[inline(always)]
fn product_one(x: Frequencies, y: Frequencies, z: Frequencies) -> Frequencies
    requires x { AreSmall x }
    requires y { AreSmall y }
    requires z { AreSmall z }
    ensures sum { result.sum ≡ 8 * x.sum + 16 * y.sum + 16 * z.sum }
    ensures real { result.real + x.real + x.imaginary + y.real + 2 * y.imaginary
        ≡ 8 * z.real + 4 * z.imaginary + 10 * RAISE }
    ensures imaginary { result.imaginary + x.imaginary + y.imaginary + 4 * z.real
        ≡ x.real + 2 * y.real + 8 * z.imaginary + 12 * RAISE }
    ensures alternating { result.alternating + 8 * y.alternating + z.alternating ≡ x.alternating + 18 * RAISE }
    ensures larger { AreLarger result }
{
    Frequencies {
        sum: 8 * x.sum + 16 * y.sum + 16 * z.sum,
        real: 8 * z.real + 4 * z.imaginary + 10 * RAISE
            - (x.real + x.imaginary + y.real + 2 * y.imaginary),
        imaginary: x.real + 2 * y.real + 8 * z.imaginary + 12 * RAISE
            - (x.imaginary + y.imaginary + 4 * z.real),
        alternating: x.alternating + 18 * RAISE - (8 * y.alternating + z.alternating),
    }
}

// The transform of the product's rows 2, 5, 8 and 11.
#[inline(always)]
fn product_two(x: Frequencies, y: Frequencies, z: Frequencies) -> Frequencies
    requires x { AreSmall x }
    requires y { AreSmall y }
    requires z { AreSmall z }
    ensures sum { result.sum ≡ 16 * x.sum + 8 * y.sum + 16 * z.sum }
    ensures real { result.real + 8 * x.imaginary + y.real + y.imaginary + z.real + 2 * z.imaginary
        ≡ 4 * x.real + 26 * RAISE }
    ensures imaginary { result.imaginary + y.imaginary + z.imaginary
        ≡ 8 * x.real + 4 * x.imaginary + y.real + 2 * z.real + 4 * RAISE }
    ensures alternating { result.alternating + 8 * z.alternating ≡ x.alternating + y.alternating + 16 * RAISE }
    ensures larger { AreLarger result }
{
    Frequencies {
        sum: 16 * x.sum + 8 * y.sum + 16 * z.sum,
        real: 4 * x.real + 26 * RAISE
            - (8 * x.imaginary + y.real + y.imaginary + z.real + 2 * z.imaginary),
        imaginary: 8 * x.real + 4 * x.imaginary + y.real + 2 * z.real + 4 * RAISE
            - (y.imaginary + z.imaginary),
        alternating: x.alternating + y.alternating + 16 * RAISE - 8 * z.alternating,
    }
}
