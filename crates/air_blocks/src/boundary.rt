//! Entries 11 to 59: the first row shows the start of a run from the inputs, the last one the end with the outputs.
ghost use Rattle.std.specs.Prelude.{◌≡◌, ◌<◌, List, slice_index, length};
ghost use Rattle.air_kit.specs.BoundaryValues.{entry_11, entry_12, entry_13, entry_14, entry_15, entry_16, entry_20, entry_21, entry_22, entry_23, entry_39, entry_40, entry_41, entry_42, entry_43, entry_44, start_values, inputs_values, end_values, outputs_values, boundary_values};
ghost use Rattle.air_kit.specs.DeepCells.{depth_at_start, key_at_start};
ghost use Rattle.air_kit.specs.Places.{first_fault_of};
ghost use Rattle.air_kit.specs.Rows.{claim_at, spot_at};
ghost use Rattle.air_blocks.specs.Entries.{of_row};

use air_kit::{OpSet, Place, Seen, TableName, deep_inputs, first_nonzero, input_key, or_next};
use vm_field::{Felt, Felts, LEAST_DEPTH};
use vm_ops::Op;
use vm_table::MainView;

// Element j of a list; 0 outside.
fn element_at(elements: &Felts, j: usize) -> Felt
    ensures { result ≡ slice_index elements.now j }
{
    match elements.as_slice().get(j) {
        Some(element) => *element,
        None => Felt::ZERO,
    }
}

// The first row starts a block.
#[tactic(auto, unfolding(air_kit::specs::BoundaryValues::entry_11))]
fn entry_11<V: MainView>(x: &Seen<'_, V>) -> Felt
    ensures { result ≡ of_row entry_11 (V.cells x.now.row.now) }
{
    Felt::ONE - x.sum(OpSet::Start)
}

// No block is open.
#[tactic(auto, unfolding(air_kit::specs::BoundaryValues::entry_12))]
fn entry_12<V: MainView>(x: &Seen<'_, V>) -> Felt
    ensures { result ≡ of_row entry_12 (V.cells x.now.row.now) }
{
    x.row.addr()
}

// The context is 0.
#[tactic(auto, unfolding(air_kit::specs::BoundaryValues::entry_13))]
fn entry_13<V: MainView>(x: &Seen<'_, V>) -> Felt
    ensures { result ≡ of_row entry_13 (V.cells x.now.row.now) }
{
    x.row.ctx()
}

// The frame pointer is 2^30.
#[tactic(auto, unfolding(air_kit::specs::BoundaryValues::entry_14))]
fn entry_14<V: MainView>(x: &Seen<'_, V>) -> Felt
    ensures { result ≡ of_row entry_14 (V.cells x.now.row.now) }
{
    x.row.fmp() - Felt::from_u32(1 << 30)
}

// No syscall runs.
#[tactic(auto, unfolding(air_kit::specs::BoundaryValues::entry_15))]
fn entry_15<V: MainView>(x: &Seen<'_, V>) -> Felt
    ensures { result ≡ of_row entry_15 (V.cells x.now.row.now) }
{
    x.row.sys()
}

// 16 to 19: the digest of the function that runs is zero.
#[tactic(auto, unfolding(air_kit::specs::BoundaryValues::entry_16))]
fn entry_16<V: MainView>(j: usize, x: &Seen<'_, V>) -> Felt
    requires { j < 4 }
    ensures { result ≡ of_row (entry_16 j) (V.cells x.now.row.now) }
{
    x.row.f(j)
}

// Nothing was started.
#[tactic(auto, unfolding(air_kit::specs::BoundaryValues::entry_20))]
fn entry_20<V: MainView>(x: &Seen<'_, V>) -> Felt
    ensures { result ≡ of_row entry_20 (V.cells x.now.row.now) }
{
    x.row.lv()
}

// The stack is as deep as it is at the start.
#[tactic(auto, unfolding(air_kit::specs::BoundaryValues::entry_21))]
fn entry_21<V: MainView>(place: &Place<'_, V>, x: &Seen<'_, V>) -> Felt
    ensures { result ≡ of_row (entry_21 (claim_at place.now)) (V.cells x.now.row.now) }
{
    x.row.depth() - depth_at_start(place)
}

// The newest cell below the sixteenth is that of the start.
#[tactic(auto, unfolding(air_kit::specs::BoundaryValues::entry_22))]
fn entry_22<V: MainView>(place: &Place<'_, V>, x: &Seen<'_, V>) -> Felt
    ensures { result ≡ of_row (entry_22 (claim_at place.now)) (V.cells x.now.row.now) }
{
    x.row.key() - key_at_start(place)
}

// How deep the stack is at the start.
fn depth_at_start<V>(place: &Place<'_, V>) -> Felt
    ensures { result ≡ depth_at_start (claim_at place.now) }
{
    let _known = place.public.statement.inputs.len();
    Felt::from_u32((LEAST_DEPTH + deep_inputs(place.public).len()) as u32)
}

// The key of the newest cell below the sixteenth at the start, 0 where there is none.
#[tactic(auto, unfolding(air_kit::specs::DeepCells::input_keys))]
fn key_at_start<V>(place: &Place<'_, V>) -> Felt
    ensures { result ≡ key_at_start (claim_at place.now) }
{
    if deep_inputs(place.public).is_empty() {
        Felt::ZERO
    } else {
        input_key(0)
    }
}

// 23 to 38: cell j is input j.
#[tactic(auto, unfolding(air_kit::specs::BoundaryValues::entry_23))]
fn entry_23<V: MainView>(place: &Place<'_, V>, j: usize, x: &Seen<'_, V>) -> Felt
    requires { j < 16 }
    ensures { result ≡ of_row (entry_23 (claim_at place.now) j) (V.cells x.now.row.now) }
{
    x.row.s(j) - element_at(&place.public.statement.inputs, j)
}

// The kernel's table has a row for each digest of the kernel.
#[tactic(auto, unfolding(air_kit::specs::BoundaryValues::entry_39))]
fn entry_39<V: MainView>(place: &Place<'_, V>, x: &Seen<'_, V>) -> Felt
    ensures { result ≡ of_row (entry_39 (claim_at place.now)) (V.cells x.now.row.now) }
{
    let _ = x;
    let digests = place.public.statement.kernel.len();
    Felt::from_u32(place.lengths[TableName::Kernel.number()]) - Felt::from_u32(digests as u32)
}

// The table of cells left has a row for each output below the sixteenth.
#[tactic(auto, unfolding(air_kit::specs::BoundaryValues::entry_40))]
fn entry_40<V: MainView>(place: &Place<'_, V>, x: &Seen<'_, V>) -> Felt
    ensures { result ≡ of_row (entry_40 (claim_at place.now)) (V.cells x.now.row.now) }
{
    let _ = x;
    let outputs = Felt::from_u32(place.public.statement.outputs.len() as u32);
    Felt::from_u32(place.lengths[TableName::Left.number()]) - (outputs - Felt::from_u32(16))
}

// The last row is HALT.
#[tactic(auto, unfolding(air_kit::specs::BoundaryValues::entry_41))]
fn entry_41<V: MainView>(x: &Seen<'_, V>) -> Felt
    ensures { result ≡ of_row entry_41 (V.cells x.now.row.now) }
{
    Felt::ONE - x.one(Op::Halt)
}

// The stack is as deep as there are outputs.
#[tactic(auto, unfolding(air_kit::specs::BoundaryValues::entry_42))]
fn entry_42<V: MainView>(place: &Place<'_, V>, x: &Seen<'_, V>) -> Felt
    ensures { result ≡ of_row (entry_42 (claim_at place.now)) (V.cells x.now.row.now) }
{
    x.row.depth() - Felt::from_u32(place.public.statement.outputs.len() as u32)
}

// The first cell below the sixteenth is the first of those left.
#[tactic(auto, unfolding(air_kit::specs::BoundaryValues::entry_43))]
fn entry_43<V: MainView>(place: &Place<'_, V>, x: &Seen<'_, V>) -> Felt
    ensures { result ≡ of_row (entry_43 (claim_at place.now)) (V.cells x.now.row.now) }
{
    x.row.key() - place.left_key
}

// 44 to 59: cell j is output j.
#[tactic(auto, unfolding(air_kit::specs::BoundaryValues::entry_44))]
fn entry_44<V: MainView>(place: &Place<'_, V>, j: usize, x: &Seen<'_, V>) -> Felt
    requires { j < 16 }
    ensures { result ≡ of_row (entry_44 (claim_at place.now) j) (V.cells x.now.row.now) }
{
    x.row.s(j) - element_at(&place.public.statement.outputs, j)
}

/// The first of entries 11 to 22 that is not 0.
#[tactic(auto, unfolding(air_kit::specs::BoundaryValues::start_values, air_kit::specs::Places::family))]
fn start_faults<V: MainView>(place: &Place<'_, V>, x: &Seen<'_, V>) -> Option<(u16, Felt)>
    requires { x.now.row.now ≡ place.now.cur }
    ensures { result ≡ first_fault_of 11 (start_values (claim_at place.now) (spot_at V.cells place.now)) }
{
    if place.row != 0 {
        return None;
    }
    first_nonzero(
        &[
            entry_11(x),
            entry_12(x),
            entry_13(x),
            entry_14(x),
            entry_15(x),
            entry_16(0, x),
            entry_16(1, x),
            entry_16(2, x),
            entry_16(3, x),
            entry_20(x),
            entry_21(place, x),
            entry_22(place, x),
        ],
        11,
    )
}

/// The first of entries 23 to 38 that is not 0.
#[tactic(auto, unfolding(air_kit::specs::BoundaryValues::inputs_values, air_kit::specs::Places::family))]
fn inputs_faults<V: MainView>(place: &Place<'_, V>, x: &Seen<'_, V>) -> Option<(u16, Felt)>
    requires { x.now.row.now ≡ place.now.cur }
    ensures { result ≡ first_fault_of 23 (inputs_values (claim_at place.now) (spot_at V.cells place.now)) }
{
    if place.row != 0 {
        return None;
    }
    first_nonzero(
        &[
            entry_23(place, 0, x),
            entry_23(place, 1, x),
            entry_23(place, 2, x),
            entry_23(place, 3, x),
            entry_23(place, 4, x),
            entry_23(place, 5, x),
            entry_23(place, 6, x),
            entry_23(place, 7, x),
            entry_23(place, 8, x),
            entry_23(place, 9, x),
            entry_23(place, 10, x),
            entry_23(place, 11, x),
            entry_23(place, 12, x),
            entry_23(place, 13, x),
            entry_23(place, 14, x),
            entry_23(place, 15, x),
        ],
        23,
    )
}

/// The first of entries 39 to 40 that is not 0, then of 41 to 43.
#[tactic(auto, unfolding(air_kit::specs::BoundaryValues::end_values))]
fn end_faults<V: MainView>(place: &Place<'_, V>, x: &Seen<'_, V>) -> Option<(u16, Felt)>
    requires { x.now.row.now ≡ place.now.cur }
    ensures { result ≡ first_fault_of 39 (end_values (claim_at place.now) (spot_at V.cells place.now)) }
{
    let (kernel, left) = if place.row == 0 {
        (entry_39(place, x), entry_40(place, x))
    } else {
        (Felt::ZERO, Felt::ZERO)
    };
    match &place.next {
        Some(_) => first_nonzero(&[kernel, left, Felt::ZERO, Felt::ZERO, Felt::ZERO], 39),
        None => first_nonzero(
            &[
                kernel,
                left,
                entry_41(x),
                entry_42(place, x),
                entry_43(place, x),
            ],
            39,
        ),
    }
}

/// The first of entries 44 to 59 that is not 0.
#[tactic(auto, unfolding(air_kit::specs::BoundaryValues::outputs_values, air_kit::specs::Places::family))]
fn outputs_faults<V: MainView>(place: &Place<'_, V>, x: &Seen<'_, V>) -> Option<(u16, Felt)>
    requires { x.now.row.now ≡ place.now.cur }
    ensures { result ≡ first_fault_of 44 (outputs_values (claim_at place.now) (spot_at V.cells place.now)) }
{
    match &place.next {
        Some(_) => None,
        None => first_nonzero(
            &[
                entry_44(place, 0, x),
                entry_44(place, 1, x),
                entry_44(place, 2, x),
                entry_44(place, 3, x),
                entry_44(place, 4, x),
                entry_44(place, 5, x),
                entry_44(place, 6, x),
                entry_44(place, 7, x),
                entry_44(place, 8, x),
                entry_44(place, 9, x),
                entry_44(place, 10, x),
                entry_44(place, 11, x),
                entry_44(place, 12, x),
                entry_44(place, 13, x),
                entry_44(place, 14, x),
                entry_44(place, 15, x),
            ],
            44,
        ),
    }
}

/// The first of entries 11 to 59 that is not 0.
pub fn boundary_faults<V: MainView>(place: &Place<'_, V>, x: &Seen<'_, V>) -> Option<(u16, Felt)>
    requires { x.now.row.now ≡ place.now.cur }
    ensures { result ≡ first_fault_of 11 (boundary_values (claim_at place.now) (spot_at V.cells place.now)) }
{
    let start = start_faults(place, x);
    let inputs = inputs_faults(place, x);
    let end = end_faults(place, x);
    let outputs = outputs_faults(place, x);
    or_next(start, or_next(inputs, or_next(end, outputs)))
}
