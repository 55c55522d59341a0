ghost use Rattle.std.specs.Prelude.{◌≡◌, ◌<◌, IfSome, option_map};
ghost use Rattle.vm_field.specs.Signs.{◌⊠◌};
ghost use Rattle.vm_ops.specs.Codes.{op_at};
ghost use Rattle.air_kit.specs.Flags.{flag, sum_over};
ghost use Rattle.air_kit.specs.Places.{between, first_fault_of};
ghost use Rattle.air_kit.specs.StackValues.{term, entry_119, cell_values};
ghost use Rattle.air_stack.specs.Parts.{spot_between};

use crate::moves::term;
use air_kit::{Seen, first_nonzero};
use vm_field::Felt;
use vm_ops::from_opcode;
use vm_table::MainView;

/// The first of the entries 119 to 134, of the sixteen cells, that is not 0.
#[tactic(auto, unfolding(air_kit::specs::StackValues::cell_values, air_kit::specs::Places::family))]
pub(crate) fn cell_fault<V: MainView>(x: &Seen<'_, V>, next: &Option<V>) -> Option<(u16, Felt)>
    ensures { result ≡ first_fault_of 119 (cell_values (spot_between (V.cells x.now.row.now) (option_map V.cells next.now))) }
{
    let values = [
        entry_119(0, x, next),
        entry_119(1, x, next),
        entry_119(2, x, next),
        entry_119(3, x, next),
        entry_119(4, x, next),
        entry_119(5, x, next),
        entry_119(6, x, next),
        entry_119(7, x, next),
        entry_119(8, x, next),
        entry_119(9, x, next),
        entry_119(10, x, next),
        entry_119(11, x, next),
        entry_119(12, x, next),
        entry_119(13, x, next),
        entry_119(14, x, next),
        entry_119(15, x, next),
    ];
    first_nonzero(&values, 119)
}

// Cell j: the term of the row's operation.
fn entry_119<V: MainView>(j: usize, x: &Seen<'_, V>, next: &Option<V>) -> Felt
    requires { j < 16 }
    ensures { result ≡ between (entry_119 j) (V.cells x.now.row.now) (option_map V.cells next.now) }
{
    let Some(y) = next else {
        return Felt::ZERO;
    };
    match x.operation() {
        Some(op) => term(j, x.row, y, op),
        None => sum_of_terms(j, x, y),
    }
}

// Where the bits spell no operation, the terms of all of them, by their flags.
fn sum_of_terms<V: MainView>(j: usize, x: &Seen<'_, V>, y: &V) -> Felt
    requires { j < 16 }
    ensures { result ≡ sum_over (flag (V.cells x.now.row.now)) (term j (V.cells x.now.row.now) (V.cells y.now)) }
{
    let mut total = Felt::ZERO;
    for code in (0..81u8).rev() {
        total = term_at(j, x, y, code) + total;
    }
    total
}

// The term of the operation of a code, by its flag.
fn term_at<V: MainView>(j: usize, x: &Seen<'_, V>, y: &V, code: u8) -> Felt
    requires visible { j < 16 }
    requires coded { code < 81 }
    ensures { IfSome (op_at code) (λ op. result ≡ flag (V.cells x.now.row.now) op ⊠ term j (V.cells x.now.row.now) (V.cells y.now) op) }
{
    match from_opcode(code) {
        Some(op) => x.one(op) * term(j, x.row, y, op),
        None => Felt::ZERO,
    }
}
