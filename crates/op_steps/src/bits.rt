#![tactic(auto, unfolding(crate::specs::Outcomes::outcome, vm_ops::specs::Step::left_cells, vm_ops::specs::Values::computed, vm_ops::specs::Values::trap_of))]

ghost use Rattle.std.specs.Prelude.{◌≡◌, ◌<◌, ◌==◌, ◌&&◌, length, IfOk};
ghost use Rattle.vm_ops.specs.Values.{is_bit};
ghost use Rattle.op_steps.specs.Outcomes.{outcome, showing};

use crate::cells::Cells;
use vm_field::Felt;
use vm_ops::{Cause, Op};

// Whether a cell is 0 or 1.
fn is_bit(cell: Felt) -> bool
    ensures { result ≡ is_bit cell }
{
    cell.value() < 2
}

// 1 less the bit.
pub(crate) fn not(cells: &[Felt; 16]) -> Result<Cells, Cause>
    ensures is { result ≡ outcome Op.Not (showing cells.now) }
    ensures count { IfOk result (λ left. length left ≡ 1) }
{
    if is_bit(cells[0]) {
        Ok(Cells::one(Felt::ONE.sub(cells[0])))
    } else {
        Err(Cause::NotBinary)
    }
}

// 1 where both bits are 1.
pub(crate) fn and(cells: &[Felt; 16]) -> Result<Cells, Cause>
    ensures is { result ≡ outcome Op.And (showing cells.now) }
    ensures count { IfOk result (λ left. length left ≡ 1) }
{
    if is_bit(cells[0]) && is_bit(cells[1]) {
        Ok(Cells::one(cells[0].mul(cells[1])))
    } else {
        Err(Cause::NotBinary)
    }
}

// 1 where a bit is 1.
pub(crate) fn or(cells: &[Felt; 16]) -> Result<Cells, Cause>
    ensures is { result ≡ outcome Op.Or (showing cells.now) }
    ensures count { IfOk result (λ left. length left ≡ 1) }
{
    if is_bit(cells[0]) && is_bit(cells[1]) {
        let product = cells[0].mul(cells[1]);
        Ok(Cells::one(cells[0].add(cells[1]).sub(product)))
    } else {
        Err(Cause::NotBinary)
    }
}

// No cell, where the top one is 1.
pub(crate) fn assert_one(cells: &[Felt; 16]) -> Result<Cells, Cause>
    ensures is { result ≡ outcome Op.Assert (showing cells.now) }
    ensures count { IfOk result (λ left. length left ≡ 0) }
{
    if cells[0] == Felt::ONE {
        Ok(Cells::none())
    } else {
        Err(Cause::AssertFailed)
    }
}

// The inverse.
pub(crate) fn inverse(cells: &[Felt; 16]) -> Result<Cells, Cause>
    ensures is { result ≡ outcome Op.Inv (showing cells.now) }
    ensures count { IfOk result (λ left. length left ≡ 1) }
{
    if cells[0] == Felt::ZERO {
        Err(Cause::ZeroInverse)
    } else {
        Ok(Cells::one(cells[0].inv()))
    }
}

// The next two cells, swapped where the bit is 1.
pub(crate) fn swap_cells(cells: &[Felt; 16]) -> Result<Cells, Cause>
    ensures is { result ≡ outcome Op.CSwap (showing cells.now) }
    ensures count { IfOk result (λ left. length left ≡ 2) }
{
    if !is_bit(cells[0]) {
        Err(Cause::NotBinary)
    } else if cells[0] == Felt::ZERO {
        Ok(Cells::of(&[cells[1], cells[2]]))
    } else {
        Ok(Cells::of(&[cells[2], cells[1]]))
    }
}

// The next two words, swapped where the bit is 1.
pub(crate) fn swap_words(cells: &[Felt; 16]) -> Result<Cells, Cause>
    ensures is { result ≡ outcome Op.CSwapW (showing cells.now) }
    ensures count { IfOk result (λ left. length left ≡ 8) }
{
    let [bit, a, b, c, d, e, f, g, h, ..] = *cells;
    if !is_bit(bit) {
        Err(Cause::NotBinary)
    } else if bit == Felt::ZERO {
        Ok(Cells::of(&[a, b, c, d, e, f, g, h]))
    } else {
        Ok(Cells::of(&[e, f, g, h, a, b, c, d]))
    }
}
