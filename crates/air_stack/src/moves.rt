ghost use Rattle.std.specs.Prelude.{◌≡◌, ◌<◌, ◌+◌, map, slice_index, All};
ghost use Rattle.vm_field.specs.Field.{prime};
ghost use Rattle.vm_ops.specs.Moves.{leaves_of};
ghost use Rattle.air_kit.specs.StackValues.{cells, chosen, chosen_not, cell_term, word_term, is_free, top_term, below_term, end_term, term};

use crate::depth::deeper;
use air_kit::is_left;
use vm_field::Felt;
use vm_ops::{Op, leaves, opcode, sources, takes};
use vm_table::MainView;

/// The value of cell j under an operation.
#[tactic(auto, unfolding(air_kit::specs::StackValues::term))]
pub(crate) fn term<V: MainView>(j: usize, x: &V, y: &V, op: Op) -> Felt
    requires { j < 16 }
    ensures is { result ≡ term j (V.cells x.now) (V.cells y.now) op }
    ensures below { result < prime }
{
    let value = if opcode(op) == opcode(Op::End) {
        end_term(j, x, y)
    } else if j < leaves(op) {
        top_term(j, x, y, op)
    } else {
        below_term(j, x, y, op)
    };
    let _ = value.value();
    value
}

// An END keeps the stack, or takes a loop's condition off.
#[tactic(auto, unfolding(air_kit::specs::StackValues::end_term))]
fn end_term<V: MainView>(j: usize, x: &V, y: &V) -> Felt
    requires { j < 16 }
    ensures { result ≡ end_term j (V.cells x.now) (V.cells y.now) }
{
    (Felt::ONE - x.h4()) * below_term(j, x, y, Op::End) + x.h4() * below_term(j, x, y, Op::Drop)
}

// The value of a cell below those that the operation leaves: it is the one that the shift brings there.
#[tactic(auto, unfolding(air_kit::specs::StackValues::below_term), using(crate::proofs::TermLemmas::place_bounds))]
fn below_term<V: MainView>(j: usize, x: &V, y: &V, op: Op) -> Felt
    requires { j < 16 }
    ensures { result ≡ below_term j (V.cells x.now) (V.cells y.now) op }
{
    if is_left(op) && j == 15 {
        (Felt::ONE - deeper(x)) * y.s15()
    } else {
        y.s(j) - x.s((j + takes(op)).saturating_sub(leaves(op)))
    }
}

// Whether other entries, buses or the tape fix what the operation leaves.
fn is_free(op: Op) -> bool
    ensures { result ≡ is_free op }
{
    matches!(
        op,
        Op::Push
            | Op::AdvPop
            | Op::AdvPopW
            | Op::MLoad
            | Op::MLoadW
            | Op::HPerm
            | Op::U32And
            | Op::U32Xor
            | Op::U32Split
            | Op::U32Add
            | Op::U32Sub
            | Op::U32Mul
            | Op::U32Div
            | Op::U32Add3
            | Op::U32MAdd
    )
}

// The element of this place, or 0 outside.
fn value_at(values: &[Felt], j: usize) -> Felt
    ensures { result ≡ slice_index values.now j }
{
    if j < values.len() {
        values[j]
    } else {
        Felt::ZERO
    }
}

// The cell that a move brings to a place.
fn moved<V: MainView>(sources: &[usize], j: usize, x: &V) -> Felt
    requires { All (λ i. i < 16) sources.now }
    ensures { result ≡ slice_index (map (slice_index (cells (V.cells x.now))) sources.now) j }
{
    if j < sources.len() {
        x.s(sources[j])
    } else {
        Felt::ZERO
    }
}

// b where the condition is 1, a where it is 0.
fn chosen(condition: Felt, a: Felt, b: Felt) -> Felt
    ensures { result ≡ chosen condition a b }
{
    a + condition * (b - a)
}

// The other one.
fn chosen_not(condition: Felt, a: Felt, b: Felt) -> Felt
    ensures { result ≡ chosen_not condition a b }
{
    b - condition * (b - a)
}

// A cell of a conditional exchange.
fn cell_term<V: MainView>(j: usize, x: &V, y: &V) -> Felt
    ensures { result ≡ cell_term j (V.cells x.now) (V.cells y.now) }
{
    if j == 0 {
        y.s0() - chosen(x.s0(), x.s1(), x.s2())
    } else {
        y.s1() - chosen_not(x.s0(), x.s1(), x.s2())
    }
}

// A cell of a conditional exchange of words.
fn word_term<V: MainView>(j: usize, x: &V, y: &V) -> Felt
    requires { j < 8 }
    ensures { result ≡ word_term j (V.cells x.now) (V.cells y.now) }
{
    if j < 4 {
        y.s(j) - chosen(x.s0(), x.s(j + 1), x.s(j + 5))
    } else {
        y.s(j) - chosen_not(x.s0(), x.s(j - 3), x.s(j + 1))
    }
}

// The value of a cell that the operation leaves on top.
#[tactic(auto, unfolding(air_kit::specs::StackValues::top_term, air_kit::specs::StackValues::left_value, air_kit::specs::StackValues::cells, air_kit::specs::StackValues::function_digest, air_kit::specs::StackValues::seen_of, vm_ops::specs::Step::left_cells, vm_ops::specs::Values::computed), using(crate::proofs::TermLemmas::moved_term))]
pub(crate) fn top_term<V: MainView>(j: usize, x: &V, y: &V, op: Op) -> Felt
    requires visible { j < 16 }
    requires left { j < leaves_of op }
    ensures { result ≡ top_term j (V.cells x.now) (V.cells y.now) op }
{
    match op {
        Op::Eqz => y.s0() - Felt::ONE + x.s0() * x.w0(),
        Op::Eq => y.s0() - Felt::ONE + (x.s0() - x.s1()) * x.w0(),
        Op::Inv => x.s0() * y.s0() - Felt::ONE,
        Op::CSwap => cell_term(j, x, y),
        Op::CSwapW => word_term(j, x, y),
        Op::Neg => y.s(j) - value_at(&[-x.s0()], j),
        Op::Incr => y.s(j) - value_at(&[x.s0() + Felt::ONE], j),
        Op::Not => y.s(j) - value_at(&[Felt::ONE - x.s0()], j),
        Op::FmpAdd => y.s(j) - value_at(&[x.s0() + x.fmp()], j),
        Op::Caller => y.s(j) - value_at(&[x.f3(), x.f2(), x.f1(), x.f0()], j),
        Op::Add => y.s(j) - value_at(&[x.s0() + x.s1()], j),
        Op::Mul | Op::And => y.s(j) - value_at(&[x.s0() * x.s1()], j),
        Op::Or => y.s(j) - value_at(&[x.s0() + x.s1() - x.s0() * x.s1()], j),
        Op::Pad => y.s(j) - value_at(&[Felt::ZERO], j),
        Op::SDepth => y.s(j) - value_at(&[x.depth()], j),
        Op::Clk => y.s(j) - value_at(&[x.clk()], j),
        _ => {
            if is_free(op) {
                Felt::ZERO
            } else {
                y.s(j) - moved(sources(op), j, x)
            }
        }
    }
}
