ghost use Rattle.std.specs.Prelude.{◌≡◌, ◌-◌, ◌/◌, ◌%◌, ◌≤◌, [], ◌∷◌, ◌++◌, drop, take};
ghost use Rattle.fill_requests.specs.Parts.{ten_of};
ghost use Rattle.complete_rows.specs.Limbs.{limbs, limbs_by, limbs_of};

use machine_cycles::{Event, Visible};
use vm_field::Felt;
use vm_ops::Op;

/// What the columns of limbs show, and how many of them are limbs.
#[derive(Clone, Copy, Drop)]
pub struct Limbs {
    pub cells: [Felt; 10],
    pub count: usize,
}

// The low limb of a number.
fn low(a: Felt) -> Felt
    ensures { result ≡ a % 65536 }
{
    Felt::from_u32((a.value() % 65536) as u32)
}

// What is above the low limb.
fn high(a: Felt) -> Felt
    ensures { result ≡ a / 65536 }
{
    Felt::reduced(u128::from(a.value() / 65536))
}

// Two numbers' limbs.
fn of_two(a: Felt, b: Felt) -> Limbs
    ensures cells { result.cells ≡ ten_of (limbs a ++ limbs b) }
    ensures limbs { take result.count result.cells ≡ limbs a ++ limbs b }
    ensures few { result.count ≤ 10 }
{
    let zero = Felt::ZERO;
    Limbs {
        cells: [
            low(a),
            high(a),
            low(b),
            high(b),
            zero,
            zero,
            zero,
            zero,
            zero,
            zero,
        ],
        count: 4,
    }
}

// The limbs of three numbers.
fn of_three(a: Felt, b: Felt, c: Felt) -> Limbs
    ensures cells { result.cells ≡ ten_of (limbs a ++ (limbs b ++ limbs c)) }
    ensures limbs { take result.count result.cells ≡ limbs a ++ (limbs b ++ limbs c) }
    ensures few { result.count ≤ 10 }
{
    let zero = Felt::ZERO;
    Limbs {
        cells: [
            low(a),
            high(a),
            low(b),
            high(b),
            low(c),
            high(c),
            zero,
            zero,
            zero,
            zero,
        ],
        count: 6,
    }
}

// The limbs of three numbers, and a carry.
fn of_three_and(a: Felt, b: Felt, c: Felt, carry: Felt) -> Limbs
    ensures cells { result.cells ≡ ten_of (limbs a ++ (limbs b ++ (limbs c ++ carry ∷ []))) }
    ensures limbs { take result.count result.cells ≡ limbs a ++ (limbs b ++ (limbs c ++ carry ∷ [])) }
    ensures few { result.count ≤ 10 }
{
    let zero = Felt::ZERO;
    Limbs {
        cells: [
            low(a),
            high(a),
            low(b),
            high(b),
            low(c),
            high(c),
            carry,
            zero,
            zero,
            zero,
        ],
        count: 7,
    }
}

// The limbs of four numbers.
fn of_four(a: Felt, b: Felt, c: Felt, d: Felt) -> Limbs
    ensures cells { result.cells ≡ ten_of (limbs a ++ (limbs b ++ (limbs c ++ limbs d))) }
    ensures limbs { take result.count result.cells ≡ limbs a ++ (limbs b ++ (limbs c ++ limbs d)) }
    ensures few { result.count ≤ 10 }
{
    let zero = Felt::ZERO;
    Limbs {
        cells: [
            low(a),
            high(a),
            low(b),
            high(b),
            low(c),
            high(c),
            low(d),
            high(d),
            zero,
            zero,
        ],
        count: 8,
    }
}

// The limbs of four numbers, and a carry.
fn of_four_and(a: Felt, b: Felt, c: Felt, d: Felt, carry: Felt) -> Limbs
    ensures cells { result.cells ≡ ten_of (limbs a ++ (limbs b ++ (limbs c ++ (limbs d ++ carry ∷ [])))) }
    ensures limbs { take result.count result.cells ≡ limbs a ++ (limbs b ++ (limbs c ++ (limbs d ++ carry ∷ []))) }
    ensures few { result.count ≤ 10 }
{
    Limbs {
        cells: [
            low(a),
            high(a),
            low(b),
            high(b),
            low(c),
            high(c),
            low(d),
            high(d),
            carry,
            Felt::ZERO,
        ],
        count: 9,
    }
}

// The limbs of five numbers.
fn of_five(a: Felt, b: Felt, c: Felt, d: Felt, e: Felt) -> Limbs
    ensures cells { result.cells ≡ ten_of (limbs a ++ (limbs b ++ (limbs c ++ (limbs d ++ limbs e)))) }
    ensures limbs { take result.count result.cells ≡ limbs a ++ (limbs b ++ (limbs c ++ (limbs d ++ limbs e))) }
    ensures few { result.count ≤ 10 }
{
    Limbs {
        cells: [
            low(a),
            high(a),
            low(b),
            high(b),
            low(c),
            high(c),
            low(d),
            high(d),
            low(e),
            high(e),
        ],
        count: 10,
    }
}

// No limbs, but the elements of a word behind the first.
fn of_word(word: &[Felt; 4]) -> Limbs
    ensures cells { result.cells ≡ ten_of (drop 1 word.now) }
    ensures limbs { take result.count result.cells ≡ [] }
    ensures few { result.count ≤ 10 }
{
    let zero = Felt::ZERO;
    Limbs {
        cells: [
            word[1], word[2], word[3], zero, zero, zero, zero, zero, zero, zero,
        ],
        count: 0,
    }
}

// What is left of a subtrahend when a number and 1 were taken off it; 0 at least.
fn below(a: Felt, b: Felt) -> Felt
    ensures { result ≡ a - b - 1 }
{
    Felt::reduced(u128::from(a.value().saturating_sub(b.value()).saturating_sub(1)))
}

/// What the columns of limbs show in a row before a state.
#[tactic(auto, unfolding(complete_rows::specs::Limbs::limbs_of))]
pub fn limbs_of(event: &Event, next: &Visible) -> Limbs
    ensures cells { result.cells ≡ ten_of (limbs_of event.now next.now) }
    ensures limbs { take result.count result.cells ≡ limbs_by event.now.op event.now.before next.now }
    ensures few { result.count ≤ 10 }
{
    let (x, y) = (&event.before.cells, &next.cells);
    match event.op {
        Op::U32Split => of_two(y[1], y[0]),
        Op::U32Assert2 => of_two(x[0], x[1]),
        Op::U32Sub => of_three(x[0], x[1], y[1]),
        Op::U32Add => of_three_and(x[0], x[1], y[1], y[0]),
        Op::U32Mul => of_four(x[0], x[1], y[1], y[0]),
        Op::U32Add3 => of_four_and(x[0], x[1], x[2], y[1], y[0]),
        Op::U32MAdd => of_five(x[0], x[1], x[2], y[1], y[0]),
        Op::U32Div => of_five(x[0], x[1], y[1], y[0], below(x[0], y[0])),
        Op::MLoad | Op::MStore => of_word(&event.word),
        _ => Limbs {
            cells: [Felt::ZERO; 10],
            count: 0,
        },
    }
}
