//! A quick test of rows: only a few of their entries can be other than 0 inside a span and at the
//! start of a batch, and at other rows of blocks those of batches and groups cannot.
ghost use Rattle.std.specs.Prelude.{◌≡◌, ◌<◌, IsTrue, Some, None, option_map};
ghost use Rattle.vm_field.specs.Signs.{◌⊞◌, ◌⊟◌, ◌⊠◌};
ghost use Rattle.vm_ops.specs.declared.op.Op.TheVariants as ops;
ghost use Rattle.vm_table.specs.MainColumns.{h, lv, ox, s, sp};
ghost use Rattle.air_kit.specs.Flags.{HasOp, flag};
ghost use Rattle.air_kit.specs.Places.{first_fault_of};
ghost use Rattle.air_kit.specs.BlockValues.{block_values, starts};
ghost use Rattle.air_kit.specs.SpanValues.{batch_values, group_values, rest};
ghost use Rattle.air_blocks.specs.Entries.{spot_with};
ghost use Rattle.air_decoder.specs.Quick.{HasKind, IsBehindEnd, IsClean, IsEnd, IsFirstBatch, HasNoBatch, IsFrame, IsGoingOn, IsInner, IsKept, IsNextBatch, IsOpening, IsOutside, IsOver, IsPlain, IsRepeat, IsStep};

use crate::spans::batch_faults;
use air_blocks::{block_faults, starts};
use air_kit::{Seen, are_same, is_one, is_zero};
use vm_field::Felt;
use vm_ops::{Op, is_ordinary, opcode};
use vm_table::MainView;

/// Whether a row is neither the first nor the last one, shows an operation, and its entries 1 to 114
/// are 0. Where the answer is false, they may be 0 all the same.
pub(crate) fn is_inner<V: MainView>(row: u32, x: &Seen<'_, V>, next: &Option<V>) -> bool
    ensures { IsTrue result → IsInner row (V.cells x.now.row.now) (option_map V.cells next.now) }
{
    match next {
        Some(y) => row != 0 && is_clean(x, y),
        None => false,
    }
}

fn is_clean<V: MainView>(x: &Seen<'_, V>, y: &V) -> bool
    ensures { IsTrue result → IsClean (V.cells x.now.row.now) (V.cells y.now) }
{
    let Some(op) = x.operation() else {
        return false;
    };
    if is_plain(op) {
        if is_step(x.row, y) {
            return is_group_clean(x, y, op);
        }
        return false;
    }
    if has_no_batch(op) {
        return is_block_clean(x, y, op);
    }
    is_batch_clean(x, y, op)
}

fn is_plain(op: Op) -> bool
    ensures { IsTrue result → IsPlain op }
{
    is_ordinary(op) && opcode(op) != opcode(Op::Caller) && opcode(op) != opcode(Op::FmpUpdate)
}

fn is_frame<V: MainView>(x: &V, y: &V) -> bool
    ensures { IsTrue result → IsFrame (V.cells x.now) (V.cells y.now) }
{
    are_same(y.ctx(), x.ctx())
        && are_same(y.fmp(), x.fmp())
        && are_same(y.sys(), x.sys())
        && are_same(y.f0(), x.f0())
        && are_same(y.f1(), x.f1())
        && are_same(y.f2(), x.f2())
        && are_same(y.f3(), x.f3())
}

fn is_kept<V: MainView>(x: &V, y: &V) -> bool
    ensures { IsTrue result → IsKept (V.cells x.now) (V.cells y.now) }
{
    is_frame(x, y)
        && are_same(y.addr(), x.addr())
        && are_same(y.lv(), x.lv())
        && are_same(y.ha(), x.ha())
}

fn is_first_batch<V: MainView>(x: &V, y: &V) -> bool
    ensures { IsTrue result → IsFirstBatch (V.cells x.now) (V.cells y.now) }
{
    is_zero(y.clk() - x.clk() - Felt::ONE)
        && is_zero(x.sp())
        && is_one(y.sp())
        && is_frame(x, y)
        && is_zero(y.lv() - x.lv() - Felt::ONE)
        && are_same(y.ha(), y.addr())
}

fn is_next_batch<V: MainView>(x: &V, y: &V) -> bool
    ensures { IsTrue result → IsNextBatch (V.cells x.now) (V.cells y.now) }
{
    is_zero(y.clk() - x.clk() - Felt::ONE)
        && is_zero(x.sp())
        && is_one(y.sp())
        && is_frame(x, y)
        && are_same(y.addr(), x.addr())
        && are_same(y.lv(), x.lv())
        && is_zero(y.ha() - x.ha() - Felt::from_u32(8))
}

// Whether the positions of a batch are as the row says, and the next row takes them.
fn has_batch<V: MainView>(x: &Seen<'_, V>, y: &V) -> bool
    ensures { IsTrue result → first_fault_of 92 (batch_values (spot_with 0 (V.cells x.now.row.now) (Some (V.cells y.now)))) ≡ None }
{
    let next = Some(Seen::of(y));
    match batch_faults(x, &next) {
        Some(_) => false,
        None => true,
    }
}

fn is_batch_clean<V: MainView>(x: &Seen<'_, V>, y: &V, op: Op) -> bool
    requires { HasOp (V.cells x.now.row.now) op }
    ensures { IsTrue result → IsClean (V.cells x.now.row.now) (V.cells y.now) }
{
    let code = opcode(op);
    if code == opcode(Op::Span) {
        if is_first_batch(x.row, y) {
            return has_batch(x, y);
        }
    }
    if code == opcode(Op::Respan) {
        if is_next_batch(x.row, y) {
            return has_batch(x, y);
        }
    }
    false
}

// Whether an operation starts no batch.
fn has_no_batch(op: Op) -> bool
    ensures { IsTrue result → HasNoBatch op }
{
    let code = opcode(op);
    code != opcode(Op::Span) && code != opcode(Op::Respan)
}

fn is_outside<V: MainView>(x: &V, y: &V) -> bool
    ensures { IsTrue result → IsOutside (V.cells x.now) (V.cells y.now) }
{
    is_zero(y.clk() - x.clk() - Felt::ONE) && is_zero(x.sp())
}

fn is_bit(a: Felt) -> bool
    ensures { IsTrue result → a < 2 }
{
    a.value() < 2
}

fn is_opening<V: MainView>(x: &V, y: &V) -> bool
    ensures { IsTrue result → IsOpening (V.cells x.now) (V.cells y.now) }
{
    let seen = Seen::of(y);
    is_zero(Felt::ONE - starts(&seen)) && is_frame(x, y) && is_zero(y.lv() - x.lv() - Felt::ONE)
}

fn is_repeat<V: MainView>(x: &V, y: &V) -> bool
    ensures { IsTrue result → IsRepeat (V.cells x.now) (V.cells y.now) }
{
    let seen = Seen::of(y);
    is_zero(x.s0() - Felt::ONE)
        && is_zero(Felt::ONE - starts(&seen))
        && is_frame(x, y)
        && are_same(y.addr(), x.addr())
        && are_same(y.lv(), x.lv())
}

fn is_behind_end<V: MainView>(x: &V, y: &V) -> bool
    ensures { IsTrue result → IsBehindEnd (V.cells x.now) (V.cells y.now) }
{
    if is_one(x.h6() + x.h7()) {
        true
    } else {
        is_zero(x.h6() + x.h7()) && is_frame(x, y)
    }
}

// Whether a start, another END, REPEAT or HALT is behind an END.
fn may_follow_end<V: MainView>(y: &V) -> bool
    ensures { IsTrue result → 1 ⊟ starts (flag (V.cells y.now)) ⊟ flag (V.cells y.now) ops.End ⊟ flag (V.cells y.now) ops.Repeat
        ⊟ flag (V.cells y.now) ops.Halt ≡ 0 }
{
    let seen = Seen::of(y);
    is_zero(
        Felt::ONE - starts(&seen) - seen.one(Op::End) - seen.one(Op::Repeat) - seen.one(Op::Halt),
    )
}

// Whether at most one of an END's flags is 1, and the others are 0.
fn has_kind<V: MainView>(x: &V) -> bool
    ensures { IsTrue result → HasKind (V.cells x.now) }
{
    is_bit(x.h4())
        && is_bit(x.h5())
        && is_bit(x.h6())
        && is_bit(x.h7())
        && is_bit(x.h4() + x.h5() + x.h6() + x.h7())
}

// Whether the condition is 0 where the END is of a loop that was entered.
fn has_no_condition<V: MainView>(x: &V) -> bool
    ensures { IsTrue result → h (V.cells x.now) 4 ⊠ s (V.cells x.now) 0 ≡ 0 }
{
    is_zero(x.h4() * x.s0())
}

fn closes_level<V: MainView>(x: &V, y: &V) -> bool
    ensures { IsTrue result → lv (V.cells y.now) ⊟ lv (V.cells x.now) ⊟ 0 ⊞ 1 ≡ 0 }
{
    is_zero(y.lv() - x.lv() - Felt::ZERO + Felt::ONE)
}

fn is_end<V: MainView>(x: &V, y: &V) -> bool
    ensures { IsTrue result → IsEnd (V.cells x.now) (V.cells y.now) }
{
    if !may_follow_end(y) {
        return false;
    }
    if !has_kind(x) {
        return false;
    }
    if !has_no_condition(x) {
        return false;
    }
    if !closes_level(x, y) {
        return false;
    }
    is_behind_end(x, y)
}

// Whether a block's row shows what it has to, and the next row what is kept.
fn has_block<V: MainView>(x: &Seen<'_, V>, y: &V, op: Op) -> bool
    requires has { HasOp (V.cells x.now.row.now) op }
    requires outside { sp (V.cells x.now.row.now) ≡ 0 }
    ensures { IsTrue result → first_fault_of 60 (block_values (spot_with 0 (V.cells x.now.row.now) (Some (V.cells y.now)))) ≡ None }
{
    let code = opcode(op);
    if code == opcode(Op::End) {
        return is_end(x.row, y);
    }
    if code == opcode(Op::Join) {
        return is_opening(x.row, y);
    }
    if code == opcode(Op::Split) {
        if is_bit(x.row.s0()) {
            return is_opening(x.row, y);
        }
        return false;
    }
    if code == opcode(Op::Repeat) {
        return is_repeat(x.row, y);
    }
    let next = Some(Seen::of(y));
    match block_faults(x, &next) {
        Some(_) => false,
        None => true,
    }
}

// Outside spans, where the operation starts no batch either.
fn is_block_clean<V: MainView>(x: &Seen<'_, V>, y: &V, op: Op) -> bool
    requires has { HasOp (V.cells x.now.row.now) op }
    requires no_batch { HasNoBatch op }
    ensures { IsTrue result → IsClean (V.cells x.now.row.now) (V.cells y.now) }
{
    if is_outside(x.row, y) {
        return has_block(x, y, op);
    }
    false
}

// Whether the row behind one of a span may follow it. An operation of a span has bit 3 or bit 6 at 0,
// END and RESPAN have not.
fn may_follow<V: MainView>(y: &V) -> bool
    ensures { IsTrue result → 1 ⊟ sp (V.cells y.now) ⊟ flag (V.cells y.now) ops.End ⊟ flag (V.cells y.now) ops.Respan ≡ 0 }
{
    if is_one(y.sp()) {
        if is_zero(y.b6()) {
            return true;
        }
        if is_zero(y.b3()) {
            return true;
        }
    }
    let seen = Seen::of(y);
    is_zero(Felt::ONE - y.sp() - seen.one(Op::End) - seen.one(Op::Respan))
}

fn is_step<V: MainView>(x: &V, y: &V) -> bool
    ensures { IsTrue result → IsStep (V.cells x.now) (V.cells y.now) }
{
    is_zero(y.clk() - x.clk() - Felt::ONE) && is_one(x.sp()) && may_follow(y) && is_kept(x, y)
}

// Whether the group goes on by the rules in the next row.
fn is_going_on<V: MainView>(x: &V, y: &V, left: Felt, push: Felt) -> bool
    ensures { IsTrue result → IsGoingOn (V.cells x.now) (V.cells y.now) left push }
{
    is_one(y.sp())
        && is_zero(Felt::from_u32(128) * y.h0() - left)
        && is_zero(y.ox() - x.ox() - Felt::ONE)
        && is_zero(y.gc() - x.gc() + push + Felt::ONE - Felt::ONE)
}

// Whether, behind its last row, another group begins or the batch ends by the rules.
fn is_over<V: MainView>(x: &V, y: &V, push: Felt) -> bool
    ensures { IsTrue result → IsOver (V.cells x.now) (V.cells y.now) push }
{
    if is_one(y.sp()) {
        is_zero(y.ox()) && is_zero(y.gc() - x.gc() + push + Felt::ONE - Felt::ZERO)
    } else {
        is_zero(y.sp()) && is_zero(x.gc())
    }
}

// What is left of the group without the row's operation.
fn rest<V: MainView>(x: &V, op: Op) -> Felt
    requires { HasOp (V.cells x.now) op }
    ensures { result ≡ rest (V.cells x.now) }
{
    x.h0() - Felt::from_u32(u32::from(opcode(op)))
}

fn is_group_clean<V: MainView>(x: &Seen<'_, V>, y: &V, op: Op) -> bool
    requires has { HasOp (V.cells x.now.row.now) op }
    requires inside { sp (V.cells x.now.row.now) ≡ 1 }
    ensures { IsTrue result → first_fault_of 107 (group_values (spot_with 0 (V.cells x.now.row.now) (Some (V.cells y.now)))) ≡ None }
{
    if x.row.ox().value() > 8 {
        return false;
    }
    let left = rest(x.row, op);
    let push = x.one(Op::Push);
    if is_one(left * x.row.w3()) {
        is_going_on(x.row, y, left, push)
    } else if is_zero(left) {
        if is_one(push) {
            is_going_on(x.row, y, left, push)
        } else if is_zero(push) {
            is_over(x.row, y, push)
        } else {
            false
        }
    } else {
        false
    }
}
