#![tactic(auto, unfolding(crate::specs::Outcomes::outcome, vm_ops::specs::Step::left_cells, vm_ops::specs::Values::computed, vm_ops::specs::Values::trap_of))]

ghost use Rattle.std.specs.Prelude.{◌≡◌, ℕ, ◌+◌, ◌*◌, ◌^◌, ◌<◌, ◌≤◌, ◌==◌, ◌&&◌, true, false, length, slice_index, IfOk, MatchResult};
ghost use Rattle.vm_ops.specs.Values.{is_u32, two_words, borrowed};
ghost use Rattle.op_steps.specs.Outcomes.{outcome, showing};

use crate::cells::Cells;
use vm_field::Felt;
use vm_ops::{Cause, Op};

// The two numbers below 2^32 on top.
#[derive(Clone, Copy)]
struct TwoNumbers {
    first: u32,
    second: u32,
}

// The element of a number.
pub(crate) fn small(number: u32) -> Felt
    ensures { result ≡ number }
{
    Felt::reduced(u128::from(number))
}

// The number below 2^32 that a cell holds.
pub(crate) fn number(cell: Felt, cause: Cause) -> Result<u32, Cause>
    ensures { MatchResult result (λ n. (n ≡ cell) × (n < 2 ^ 32)) (λ e. (e ≡ cause) × (2 ^ 32 ≤ cell)) }
{
    u32::try_from(cell.value()).map_err(|_| cause)
}

// The high word on top of the low one.
pub(crate) fn two_words(number: u64) -> Cells
    ensures is { result ≡ two_words number }
    ensures count { length result ≡ 2 }
{
    Cells::of(&[
        small((number / (1 << 32)) as u32),
        small((number % (1 << 32)) as u32),
    ])
}

// The numbers of the top two cells.
fn top_two(cells: &[Felt; 16]) -> Result<TwoNumbers, Cause>
    ensures { MatchResult result
        (λ p. (p.first ≡ slice_index cells.now 0) × (p.second ≡ slice_index cells.now 1)
        × (is_u32 (slice_index cells.now 0) && is_u32 (slice_index cells.now 1) ≡ true))
        (λ e. (e ≡ Cause.NotU32) × (is_u32 (slice_index cells.now 0) && is_u32 (slice_index cells.now 1) ≡ false)) }
{
    Ok(TwoNumbers {
        first: number(cells[0], Cause::NotU32)?,
        second: number(cells[1], Cause::NotU32)?,
    })
}

// The sum.
pub(crate) fn u32_add(cells: &[Felt; 16]) -> Result<Cells, Cause>
    ensures is { result ≡ outcome Op.U32Add (showing cells.now) }
    ensures count { IfOk result (λ left. length left ≡ 2) }
{
    let two = top_two(cells)?;
    Ok(two_words(u64::from(two.second) + u64::from(two.first)))
}

// The product.
pub(crate) fn u32_mul(cells: &[Felt; 16]) -> Result<Cells, Cause>
    ensures is { result ≡ outcome Op.U32Mul (showing cells.now) }
    ensures count { IfOk result (λ left. length left ≡ 2) }
{
    let two = top_two(cells)?;
    Ok(two_words(u64::from(two.second) * u64::from(two.first)))
}

// The borrow on top of the difference modulo 2^32.
pub(crate) fn u32_sub(cells: &[Felt; 16]) -> Result<Cells, Cause>
    ensures is { result ≡ outcome Op.U32Sub (showing cells.now) }
    ensures count { IfOk result (λ left. length left ≡ 2) }
{
    let two = top_two(cells)?;
    let (difference, borrow) = two.second.overflowing_sub(two.first);
    let borrow = if borrow { Felt::ONE } else { Felt::ZERO };
    Ok(Cells::of(&[borrow, small(difference)]))
}

// The remainder on top of the quotient.
pub(crate) fn u32_div(cells: &[Felt; 16]) -> Result<Cells, Cause>
    ensures is { result ≡ outcome Op.U32Div (showing cells.now) }
    ensures count { IfOk result (λ left. length left ≡ 2) }
{
    let two = top_two(cells)?;
    if two.first == 0 {
        return Err(Cause::DivideByZero);
    }
    Ok(Cells::of(&[small(two.second % two.first), small(two.second / two.first)]))
}

// Both cells, as they are.
pub(crate) fn u32_assert2(cells: &[Felt; 16]) -> Result<Cells, Cause>
    ensures is { result ≡ outcome Op.U32Assert2 (showing cells.now) }
    ensures count { IfOk result (λ left. length left ≡ 2) }
{
    let two = top_two(cells)?;
    Ok(Cells::of(&[small(two.first), small(two.second)]))
}

// The bits that both have.
pub(crate) fn u32_and(cells: &[Felt; 16]) -> Result<Cells, Cause>
    ensures is { result ≡ outcome Op.U32And (showing cells.now) }
    ensures count { IfOk result (λ left. length left ≡ 1) }
{
    let two = top_two(cells)?;
    Ok(Cells::one(small(two.second & two.first)))
}

// The bits that one of them has.
pub(crate) fn u32_xor(cells: &[Felt; 16]) -> Result<Cells, Cause>
    ensures is { result ≡ outcome Op.U32Xor (showing cells.now) }
    ensures count { IfOk result (λ left. length left ≡ 1) }
{
    let two = top_two(cells)?;
    Ok(Cells::one(small(two.second ^ two.first)))
}

// The sum of three.
pub(crate) fn u32_add3(cells: &[Felt; 16]) -> Result<Cells, Cause>
    ensures is { result ≡ outcome Op.U32Add3 (showing cells.now) }
    ensures count { IfOk result (λ left. length left ≡ 2) }
{
    let two = top_two(cells)?;
    let third = number(cells[2], Cause::NotU32)?;
    Ok(two_words(u64::from(third) + u64::from(two.second) + u64::from(two.first)))
}

// The product of the top two, and the third.
pub(crate) fn u32_madd(cells: &[Felt; 16]) -> Result<Cells, Cause>
    ensures is { result ≡ outcome Op.U32MAdd (showing cells.now) }
    ensures count { IfOk result (λ left. length left ≡ 2) }
{
    let two = top_two(cells)?;
    let third = number(cells[2], Cause::NotU32)?;
    Ok(two_words(u64::from(two.second) * u64::from(two.first) + u64::from(third)))
}
