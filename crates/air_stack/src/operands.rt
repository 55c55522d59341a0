ghost use Rattle.std.specs.Prelude.{◌≡◌, IsTrue, option_map};
ghost use Rattle.air_kit.specs.Flags.{flag};
ghost use Rattle.air_kit.specs.Places.{between, first_fault_of};
ghost use Rattle.air_kit.specs.StackValues.{entry_135, entry_136, entry_137, entry_138, entry_139, operand_values};
ghost use Rattle.air_stack.specs.Parts.{has_operands, HasNoOperands, spot_between};

use air_kit::{Seen, first_nonzero};
use vm_field::Felt;
use vm_ops::{Op, opcode};
use vm_table::MainView;

/// The first of the entries 135 to 139, of what operands must be, that is not 0.
pub(crate) fn operand_fault<V: MainView>(x: &Seen<'_, V>, next: &Option<V>) -> Option<(u16, Felt)>
    ensures { result ≡ first_fault_of 135 (operand_values (spot_between (V.cells x.now.row.now) (option_map V.cells next.now))) }
{
    if lacks_operands(x) {
        return None;
    }
    tested_fault(x, next)
}

// The same by its five values. It stands apart, so that the rows of other operations pay nothing for it.
#[inline(never)]
#[tactic(auto, unfolding(air_kit::specs::StackValues::operand_values))]
fn tested_fault<V: MainView>(x: &Seen<'_, V>, next: &Option<V>) -> Option<(u16, Felt)>
    ensures { result ≡ first_fault_of 135 (operand_values (spot_between (V.cells x.now.row.now) (option_map V.cells next.now))) }
{
    let values = [
        entry_135(x, next),
        entry_136(x, next),
        entry_137(x),
        entry_138(x),
        entry_139(x),
    ];
    first_nonzero(&values, 135)
}

// Whether the row's operation has no operand that is tested, where these entries are 0.
fn lacks_operands<V: MainView>(x: &Seen<'_, V>) -> bool
    ensures { IsTrue result → HasNoOperands (flag (V.cells x.now.row.now)) }
{
    match x.operation() {
        Some(op) => !has_operands(op),
        None => false,
    }
}

// The operations whose operands are tested. The code of none is above CSWAPW's; with that said, the others take one comparison
// and a test of bits, and no jump by the operation.
fn has_operands(op: Op) -> bool
    ensures { result ≡ has_operands op }
{
    opcode(op) <= opcode(Op::CSwapW) && is_tested(op)
}

fn is_tested(op: Op) -> bool
    ensures { result ≡ has_operands op }
{
    matches!(
        op,
        Op::Eqz | Op::Eq | Op::Not | Op::And | Op::Or | Op::CSwap | Op::CSwapW | Op::Assert
    )
}

// EQZ leaves 0 where the cell is not 0.
#[tactic(auto, unfolding(air_kit::specs::StackValues::entry_135))]
fn entry_135<V: MainView>(x: &Seen<'_, V>, next: &Option<V>) -> Felt
    ensures { result ≡ between entry_135 (V.cells x.now.row.now) (option_map V.cells next.now) }
{
    let Some(y) = next else {
        return Felt::ZERO;
    };
    x.one(Op::Eqz) * x.row.s0() * y.s0()
}

// EQ leaves 0 where the cells differ.
#[tactic(auto, unfolding(air_kit::specs::StackValues::entry_136))]
fn entry_136<V: MainView>(x: &Seen<'_, V>, next: &Option<V>) -> Felt
    ensures { result ≡ between entry_136 (V.cells x.now.row.now) (option_map V.cells next.now) }
{
    let Some(y) = next else {
        return Felt::ZERO;
    };
    x.one(Op::Eq) * (x.row.s0() - x.row.s1()) * y.s0()
}

// The operand is 0 or 1,
#[tactic(auto, unfolding(air_kit::specs::StackValues::entry_137))]
fn entry_137<V: MainView>(x: &Seen<'_, V>) -> Felt
    ensures { result ≡ entry_137 (flag (V.cells x.now.row.now)) (V.cells x.now.row.now) }
{
    (x.one(Op::Not) + x.one(Op::And) + x.one(Op::Or) + x.one(Op::CSwap) + x.one(Op::CSwapW))
        * x.row.s0()
        * (x.row.s0() - Felt::ONE)
}

// and so is the second one.
#[tactic(auto, unfolding(air_kit::specs::StackValues::entry_138))]
fn entry_138<V: MainView>(x: &Seen<'_, V>) -> Felt
    ensures { result ≡ entry_138 (flag (V.cells x.now.row.now)) (V.cells x.now.row.now) }
{
    (x.one(Op::And) + x.one(Op::Or)) * x.row.s1() * (x.row.s1() - Felt::ONE)
}

// What is asserted is 1.
#[tactic(auto, unfolding(air_kit::specs::StackValues::entry_139))]
fn entry_139<V: MainView>(x: &Seen<'_, V>) -> Felt
    ensures { result ≡ entry_139 (flag (V.cells x.now.row.now)) (V.cells x.now.row.now) }
{
    x.one(Op::Assert) * (x.row.s0() - Felt::ONE)
}
