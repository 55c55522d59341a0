ghost use Rattle.std.specs.Prelude.{◌≡◌, ◌<◌, IsTrue, option_map};
ghost use Rattle.air_kit.specs.Flags.{flag};
ghost use Rattle.air_kit.specs.Places.{between, first_fault_of};
ghost use Rattle.air_kit.specs.Rows.{spot_at};
ghost use Rattle.air_kit.specs.U32Values.{limbs, takes_two, takes_three, two_left, entry_140, entry_141, entry_142, entry_143, entry_144, entry_145, entry_146, entry_147, u32_values};
ghost use Rattle.air_u32.specs.Limbs.{has_limbs, HasNoLimbs};

use air_kit::{Place, Seen, first_nonzero};
use vm_field::Felt;
use vm_ops::{Op, opcode};
use vm_table::MainView;

/// The first of the entries 140 to 147 that is not 0 at a place, with its value.
pub fn first_fault<V: MainView>(place: &Place<'_, V>) -> Option<(u16, Felt)>
    ensures { result ≡ first_fault_of 140 (u32_values (spot_at V.cells place.now)) }
{
    first_fault_seen(place, &Seen::of(&place.cur))
}

/// The same, where the place's row is decoded already.
pub fn first_fault_seen<V: MainView>(place: &Place<'_, V>, x: &Seen<'_, V>) -> Option<(u16, Felt)>
    requires { x.now.row.now ≡ place.now.cur }
    ensures { result ≡ first_fault_of 140 (u32_values (spot_at V.cells place.now)) }
{
    if lacks_limbs(x) {
        return None;
    }
    limb_fault(place, x)
}

// The same by its eight values. It stands apart, so that the rows of other operations pay nothing for it.
#[inline(never)]
#[tactic(auto, unfolding(air_kit::specs::U32Values::u32_values))]
fn limb_fault<V: MainView>(place: &Place<'_, V>, x: &Seen<'_, V>) -> Option<(u16, Felt)>
    requires { x.now.row.now ≡ place.now.cur }
    ensures { result ≡ first_fault_of 140 (u32_values (spot_at V.cells place.now)) }
{
    let values = [
        entry_140(x),
        entry_141(x),
        entry_142(x),
        entry_143(x, &place.next),
        entry_144(x, &place.next),
        entry_145(x, &place.next),
        entry_146(x, &place.next),
        entry_147(x),
    ];
    first_nonzero(&values, 140)
}

// Whether the row's operation is one without limbs, where all entries are 0.
fn lacks_limbs<V: MainView>(x: &Seen<'_, V>) -> bool
    ensures { IsTrue result → HasNoLimbs (flag (V.cells x.now.row.now)) }
{
    match x.operation() {
        Some(op) => !has_limbs(op),
        None => false,
    }
}

// The operations with limbs. The code of none is above U32SPLIT's; with that said, the others take one comparison and a test of
// bits, and no jump by the operation.
fn has_limbs(op: Op) -> bool
    ensures { result ≡ has_limbs op }
{
    opcode(op) <= opcode(Op::U32Split) && is_with_limbs(op)
}

fn is_with_limbs(op: Op) -> bool
    ensures { result ≡ has_limbs op }
{
    matches!(
        op,
        Op::U32Split
            | Op::U32Add
            | Op::U32Sub
            | Op::U32Mul
            | Op::U32Div
            | Op::U32Assert2
            | Op::U32Add3
            | Op::U32MAdd
    )
}

// The number of the limbs j and j + 1.
#[tactic(auto, unfolding(air_kit::specs::U32Values::limbs))]
fn limbs<V: MainView>(j: usize, x: &V) -> Felt
    requires { j < 9 }
    ensures { result ≡ limbs j (V.cells x.now) }
{
    x.t(j) + Felt::from_u32(65536) * x.t(j + 1)
}

// 1 where the operation takes two numbers of 32 bits.
#[tactic(auto, unfolding(air_kit::specs::U32Values::takes_two))]
fn takes_two<V: MainView>(x: &Seen<'_, V>) -> Felt
    ensures { result ≡ takes_two (flag (V.cells x.now.row.now)) }
{
    x.one(Op::U32Add)
        + x.one(Op::U32Sub)
        + x.one(Op::U32Mul)
        + x.one(Op::U32Div)
        + x.one(Op::U32Assert2)
        + x.one(Op::U32Add3)
        + x.one(Op::U32MAdd)
}

// 1 where it takes a third one.
#[tactic(auto, unfolding(air_kit::specs::U32Values::takes_three))]
fn takes_three<V: MainView>(x: &Seen<'_, V>) -> Felt
    ensures { result ≡ takes_three (flag (V.cells x.now.row.now)) }
{
    x.one(Op::U32Add3) + x.one(Op::U32MAdd)
}

// 2^32.
fn two_32() -> Felt
    ensures { result ≡ 4294967296 }
{
    Felt::from_u32(65536) * Felt::from_u32(65536)
}

// The number of the two cells that are left, the high word on top.
#[tactic(auto, unfolding(air_kit::specs::U32Values::two_left))]
fn two_left<V: MainView>(y: &V) -> Felt
    ensures { result ≡ two_left (V.cells y.now) }
{
    y.s1() + two_32() * y.s0()
}

// The first operand is the number of its limbs.
#[tactic(auto, unfolding(air_kit::specs::U32Values::entry_140))]
fn entry_140<V: MainView>(x: &Seen<'_, V>) -> Felt
    ensures { result ≡ entry_140 (flag (V.cells x.now.row.now)) (V.cells x.now.row.now) }
{
    takes_two(x) * (x.row.s0() - limbs(0, x.row))
}

// So is the second one,
#[tactic(auto, unfolding(air_kit::specs::U32Values::entry_141))]
fn entry_141<V: MainView>(x: &Seen<'_, V>) -> Felt
    ensures { result ≡ entry_141 (flag (V.cells x.now.row.now)) (V.cells x.now.row.now) }
{
    takes_two(x) * (x.row.s1() - limbs(2, x.row))
}

// and the third one.
#[tactic(auto, unfolding(air_kit::specs::U32Values::entry_142))]
fn entry_142<V: MainView>(x: &Seen<'_, V>) -> Felt
    ensures { result ≡ entry_142 (flag (V.cells x.now.row.now)) (V.cells x.now.row.now) }
{
    takes_three(x) * (x.row.s2() - limbs(4, x.row))
}

// The low word that is left is that of its limbs.
#[tactic(auto, unfolding(air_kit::specs::U32Values::entry_143))]
fn entry_143<V: MainView>(x: &Seen<'_, V>, next: &Option<V>) -> Felt
    ensures { result ≡ between entry_143 (V.cells x.now.row.now) (option_map V.cells next.now) }
{
    let Some(y) = next else {
        return Felt::ZERO;
    };
    x.one(Op::U32Split) * (y.s1() - limbs(0, x.row))
        + (x.one(Op::U32Add) + x.one(Op::U32Sub) + x.one(Op::U32Mul) + x.one(Op::U32Div))
            * (y.s1() - limbs(4, x.row))
        + takes_three(x) * (y.s1() - limbs(6, x.row))
}

// So is the high one, where it is no borrow.
#[tactic(auto, unfolding(air_kit::specs::U32Values::entry_144))]
fn entry_144<V: MainView>(x: &Seen<'_, V>, next: &Option<V>) -> Felt
    ensures { result ≡ between entry_144 (V.cells x.now.row.now) (option_map V.cells next.now) }
{
    let Some(y) = next else {
        return Felt::ZERO;
    };
    x.one(Op::U32Split) * (y.s0() - limbs(2, x.row))
        + x.one(Op::U32Add) * (y.s0() - x.row.t6())
        + x.one(Op::U32Add3) * (y.s0() - x.row.t8())
        + x.one(Op::U32Sub) * y.s0() * (y.s0() - Felt::ONE)
        + (x.one(Op::U32Mul) + x.one(Op::U32Div)) * (y.s0() - limbs(6, x.row))
        + x.one(Op::U32MAdd) * (y.s0() - limbs(8, x.row))
}

// The operation itself, over both words.
#[tactic(auto, unfolding(air_kit::specs::U32Values::entry_145))]
fn entry_145<V: MainView>(x: &Seen<'_, V>, next: &Option<V>) -> Felt
    ensures { result ≡ between entry_145 (V.cells x.now.row.now) (option_map V.cells next.now) }
{
    let Some(y) = next else {
        return Felt::ZERO;
    };
    x.one(Op::U32Split) * (x.row.s0() - two_left(y))
        + x.one(Op::U32Add) * (x.row.s0() + x.row.s1() - two_left(y))
        + x.one(Op::U32Add3) * (x.row.s0() + x.row.s1() + x.row.s2() - two_left(y))
        + x.one(Op::U32Mul) * (x.row.s0() * x.row.s1() - two_left(y))
        + x.one(Op::U32MAdd) * (x.row.s0() * x.row.s1() + x.row.s2() - two_left(y))
        + x.one(Op::U32Sub) * (x.row.s1() - x.row.s0() - y.s1() + two_32() * y.s0())
        + x.one(Op::U32Div) * (x.row.s1() - x.row.s0() * y.s1() - y.s0())
}

// Two words are one element in one way alone.
#[tactic(auto, unfolding(air_kit::specs::U32Values::entry_146))]
fn entry_146<V: MainView>(x: &Seen<'_, V>, next: &Option<V>) -> Felt
    ensures { result ≡ between entry_146 (V.cells x.now.row.now) (option_map V.cells next.now) }
{
    let Some(y) = next else {
        return Felt::ZERO;
    };
    (x.one(Op::U32Split) + x.one(Op::U32Mul) + x.one(Op::U32MAdd))
        * (Felt::ONE - (Felt::from_u32(u32::MAX) - y.s0()) * x.row.w0())
        * y.s1()
}

// The remainder is below the divisor.
#[tactic(auto, unfolding(air_kit::specs::U32Values::entry_147))]
fn entry_147<V: MainView>(x: &Seen<'_, V>) -> Felt
    ensures { result ≡ entry_147 (flag (V.cells x.now.row.now)) (V.cells x.now.row.now) }
{
    x.one(Op::U32Div) * (x.row.s0() - limbs(6, x.row) - Felt::ONE - limbs(8, x.row))
}
