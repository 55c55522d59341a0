ghost use Rattle.std.specs.Prelude.{◌≡◌, ◌==◌, ◌&&◌, ◌-◌, ◌<◌, ◌≤◌, true, if◌then◌else◌, [], ◌∷◌, OnOk};
ghost use Rattle.vm_table.specs.MainColumns.{gc, h, ha, s, sp};
ghost use Rattle.vm_ops.specs.Codes.{is_ordinary_op};
ghost use Rattle.buses.specs.Counts.{once};
ghost use Rattle.air_kit.specs.Flags.{op_of, HasBits};
ghost use Rattle.air_kit.specs.MainTuples.{groups_asked, groups_from, groups_given, is_batch_op, positions};
ghost use Rattle.air_kit.specs.SpanValues.{opcode_in, rest, rest_flag};
ghost use Rattle.bus_kit.specs.Widths.{tallied};
ghost use Rattle.bus_kit.specs.Adding.{IsCounted};
ghost use Rattle.bus_blocks.specs.Space.{HasSpace};

use air_kit::code_in;
use bus_kit::{Tally, ask, give};
use vm_field::{Felt, Memory};
use vm_ops::{Op, is_ordinary};
use vm_table::MainView;

/// A batch gives its positions behind the first, and rows of its span ask for those that they take.
pub fn tuples_groups<V: MainView>(op: Op, x: &V, y: &V, tally: &mut Tally<3>) -> Result<(), Memory>
    requires op { op ≡ op_of (V.cells x.now) }
    requires bits { HasBits (V.cells x.now) }
    requires batch { is_batch_op op ≡ true → positions (V.cells x.now) ≤ 8 }
    requires room { HasSpace (tallied tally.old) }
    ensures { OnOk result (IsCounted 8 (tallied tally.old) (tallied tally.new)
        (groups_asked (V.cells x.now) (V.cells y.now)) (groups_given (V.cells x.now) (V.cells y.now))) }
{
    match op {
        Op::Span | Op::Respan => give_positions(x, y, tally),
        Op::Push => ask(tally, &taken(x, y.s0())),
        _ => {
            if opens_group(op, x, y) {
                ask(tally, &taken(x, y.h0()))
            } else {
                Ok(())
            }
        }
    }
}

// The positions of a batch behind the first.
fn give_positions<V: MainView>(x: &V, y: &V, tally: &mut Tally<3>) -> Result<(), Memory>
    requires batch { positions (V.cells x.now) ≤ 8 }
    requires room { HasSpace (tallied tally.old) }
    ensures { OnOk result (IsCounted 8 (tallied tally.old) (tallied tally.new) [] (groups_from (V.cells x.now) (V.cells y.now) 1 (positions (V.cells x.now) - 1))) }
{
    let count = positions(x).value() as usize;
    for q in 1..count {
        give(tally, &position(q, count - q, x, y))?;
    }
    Ok(())
}

// A position: the batch, how many are left with it, and its element.
fn position<V: MainView>(q: usize, left: usize, x: &V, y: &V) -> [Felt; 3]
    requires within { q < 8 }
    requires few { left < 8 }
    ensures { result ≡ ha (V.cells y.now) ∷ left ∷ h (V.cells x.now) q ∷ [] }
{
    [y.ha(), Felt::from_u32(left as u32), x.h(q)]
}

// The batch, the positions that are left, and the element that a row takes.
fn taken<V: MainView>(x: &V, element: Felt) -> [Felt; 3]
    ensures { result ≡ ha (V.cells x.now) ∷ gc (V.cells x.now) ∷ element ∷ [] }
{
    [x.ha(), x.gc(), element]
}

// A group ends where nothing is left of it and the span goes on.
fn opens_group<V: MainView>(op: Op, x: &V, y: &V) -> bool
    requires { HasBits (V.cells x.now) }
    ensures { result ≡ (is_ordinary_op op && (rest_flag (V.cells x.now) == 0) && (sp (V.cells y.now) == 1)) }
{
    is_ordinary(op) && rest_flag(x) == Felt::ZERO && y.sp() == Felt::ONE
}

/// The positions of a batch that are in use.
#[tactic(auto, unfolding(air_kit::specs::MainTuples::positions))]
pub fn positions<V: MainView>(x: &V) -> Felt
    ensures { result ≡ positions (V.cells x.now) }
{
    Felt::ONE + Felt::from_u32(7) * x.c0() + Felt::from_u32(3) * x.c1() + x.c2()
}

// 1 where something is left of the group without the row's operation, else 0: the witness is the inverse.
#[tactic(auto, unfolding(air_kit::specs::SpanValues::rest_flag, air_kit::specs::SpanValues::rest))]
fn rest_flag<V: MainView>(x: &V) -> Felt
    requires { HasBits (V.cells x.now) }
    ensures { result ≡ rest_flag (V.cells x.now) }
{
    (x.h0() - opcode_in(x)) * x.w3()
}

// The number of the row's operation, which takes no product of elements where the bits are bits.
fn opcode_in<V: MainView>(x: &V) -> Felt
    requires { HasBits (V.cells x.now) }
    ensures { result ≡ opcode_in (V.cells x.now) }
{
    Felt::from_u32(u32::from(code_in(x)))
}
