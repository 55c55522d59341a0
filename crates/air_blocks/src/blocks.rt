//! Entries 60 to 91: which operation may follow which, what a block's row shows, and what is kept between rows.
ghost use Rattle.std.specs.Prelude.{◌≡◌, ◌<◌, option_map};
ghost use Rattle.air_kit.specs.BlockValues.{starts, batches, stays_inside, kind_flags, entry_60, entry_61, entry_62, entry_63, entry_64, entry_65, entry_66, entry_67, entry_68, entry_69, entry_70, entry_74, entry_75, entry_79, entry_80, entry_81, entry_82, entry_83, entry_84, entry_85, entry_89, entry_90, entry_91, follow_values, shown_values, kept_values, block_values};
ghost use Rattle.air_kit.specs.Flags.{flag};
ghost use Rattle.air_kit.specs.Places.{first_fault_of};
ghost use Rattle.air_blocks.specs.Entries.{of_row, of_pair, spot_with};

use air_kit::{OpSet, Seen, first_nonzero, or_next};
use vm_field::Felt;
use vm_ops::Op;
use vm_table::MainView;

/// The row starts a block.
#[tactic(auto, unfolding(air_kit::specs::BlockValues::starts))]
pub fn starts<V: MainView>(x: &Seen<'_, V>) -> Felt
    ensures { result ≡ starts (flag (V.cells x.now.row.now)) }
{
    x.sum(OpSet::Start)
}

/// The row starts a batch.
#[tactic(auto, unfolding(air_kit::specs::BlockValues::batches))]
pub fn batches<V: MainView>(x: &Seen<'_, V>) -> Felt
    ensures { result ≡ batches (flag (V.cells x.now.row.now)) }
{
    x.one(Op::Span) + x.one(Op::Respan)
}

// The row neither calls nor ends a call.
#[tactic(auto, unfolding(air_kit::specs::BlockValues::stays_inside))]
fn stays_inside<V: MainView>(x: &Seen<'_, V>) -> Felt
    ensures { result ≡ stays_inside (flag (V.cells x.now.row.now)) (V.cells x.now.row.now) }
{
    Felt::ONE - x.calls() - x.returns()
}

// The sum of the flags at an END.
#[tactic(auto, unfolding(air_kit::specs::BlockValues::kind_flags))]
fn kind_flags<V: MainView>(x: &Seen<'_, V>) -> Felt
    ensures { result ≡ kind_flags (V.cells x.now.row.now) }
{
    x.row.h(4) + x.row.h(5) + x.row.h(6) + x.row.h(7)
}

// Nothing follows HALT.
#[tactic(auto, unfolding(air_kit::specs::BlockValues::entry_60))]
fn entry_60<V: MainView>(x: &Seen<'_, V>, y: &Seen<'_, V>) -> Felt
    ensures { result ≡ of_pair entry_60 (V.cells x.now.row.now) (V.cells y.now.row.now) }
{
    let _ = y;
    x.one(Op::Halt)
}

// sp is 1 exactly in the rows of ordinary operations.
#[tactic(auto, unfolding(air_kit::specs::BlockValues::entry_61))]
fn entry_61<V: MainView>(x: &Seen<'_, V>) -> Felt
    ensures { result ≡ of_row entry_61 (V.cells x.now.row.now) }
{
    x.row.sp() - x.sum(OpSet::Ordinary)
}

// A child, or a body, starts behind the block's row.
#[tactic(auto, unfolding(air_kit::specs::BlockValues::entry_62))]
fn entry_62<V: MainView>(x: &Seen<'_, V>, y: &Seen<'_, V>) -> Felt
    ensures { result ≡ of_pair entry_62 (V.cells x.now.row.now) (V.cells y.now.row.now) }
{
    (x.one(Op::Join)
        + x.one(Op::Split)
        + x.calls()
        + x.one(Op::Repeat)
        + x.one(Op::Dyn)
        + x.one(Op::Loop) * x.row.s(0))
        * (Felt::ONE - starts(y))
}

// A loop that is not entered ends.
#[tactic(auto, unfolding(air_kit::specs::BlockValues::entry_63))]
fn entry_63<V: MainView>(x: &Seen<'_, V>, y: &Seen<'_, V>) -> Felt
    ensures { result ≡ of_pair entry_63 (V.cells x.now.row.now) (V.cells y.now.row.now) }
{
    x.one(Op::Loop) * (Felt::ONE - x.row.s(0)) * (Felt::ONE - y.one(Op::End))
}

// A batch begins with an operation.
#[tactic(auto, unfolding(air_kit::specs::BlockValues::entry_64))]
fn entry_64<V: MainView>(x: &Seen<'_, V>, y: &Seen<'_, V>) -> Felt
    ensures { result ≡ of_pair entry_64 (V.cells x.now.row.now) (V.cells y.now.row.now) }
{
    batches(x) * (Felt::ONE - y.row.sp())
}

// Behind an operation comes another one, the span's end, or its next batch.
#[tactic(auto, unfolding(air_kit::specs::BlockValues::entry_65))]
fn entry_65<V: MainView>(x: &Seen<'_, V>, y: &Seen<'_, V>) -> Felt
    ensures { result ≡ of_pair entry_65 (V.cells x.now.row.now) (V.cells y.now.row.now) }
{
    x.row.sp() * (Felt::ONE - y.row.sp() - y.one(Op::End) - y.one(Op::Respan))
}

// Behind an end comes a start, another end, REPEAT or HALT.
#[tactic(auto, unfolding(air_kit::specs::BlockValues::entry_66))]
fn entry_66<V: MainView>(x: &Seen<'_, V>, y: &Seen<'_, V>) -> Felt
    ensures { result ≡ of_pair entry_66 (V.cells x.now.row.now) (V.cells y.now.row.now) }
{
    x.one(Op::End) * (Felt::ONE - starts(y) - y.one(Op::End) - y.one(Op::Repeat) - y.one(Op::Halt))
}

// A condition is 0 or 1.
#[tactic(auto, unfolding(air_kit::specs::BlockValues::entry_67))]
fn entry_67<V: MainView>(x: &Seen<'_, V>) -> Felt
    ensures { result ≡ of_row entry_67 (V.cells x.now.row.now) }
{
    (x.one(Op::Split) + x.one(Op::Loop)) * x.row.s(0) * (x.row.s(0) - Felt::ONE)
}

// A loop goes on where its condition is 1.
#[tactic(auto, unfolding(air_kit::specs::BlockValues::entry_68))]
fn entry_68<V: MainView>(x: &Seen<'_, V>) -> Felt
    ensures { result ≡ of_row entry_68 (V.cells x.now.row.now) }
{
    x.one(Op::Repeat) * (x.row.s(0) - Felt::ONE)
}

// And ends where it is 0.
#[tactic(auto, unfolding(air_kit::specs::BlockValues::entry_69))]
fn entry_69<V: MainView>(x: &Seen<'_, V>) -> Felt
    ensures { result ≡ of_row entry_69 (V.cells x.now.row.now) }
{
    x.one(Op::End) * x.row.h(4) * x.row.s(0)
}

// 70 to 73: at an END the hash elements 4 to 7 are flags.
#[tactic(auto, unfolding(air_kit::specs::BlockValues::entry_70))]
fn entry_70<V: MainView>(j: usize, x: &Seen<'_, V>) -> Felt
    requires { j < 4 }
    ensures { result ≡ of_row (entry_70 j) (V.cells x.now.row.now) }
{
    x.one(Op::End) * x.row.h(4 + j) * (x.row.h(4 + j) - Felt::ONE)
}

// Of which at most one is 1.
#[tactic(auto, unfolding(air_kit::specs::BlockValues::entry_74))]
fn entry_74<V: MainView>(x: &Seen<'_, V>) -> Felt
    ensures { result ≡ of_row entry_74 (V.cells x.now.row.now) }
{
    x.one(Op::End) * kind_flags(x) * (kind_flags(x) - Felt::ONE)
}

// 75 to 78: behind a single child's digest stand zeros; a dynamic block is hashed as zeros throughout (148 to 151).
#[tactic(auto, unfolding(air_kit::specs::BlockValues::entry_75))]
fn entry_75<V: MainView>(j: usize, x: &Seen<'_, V>) -> Felt
    requires { j < 4 }
    ensures { result ≡ of_row (entry_75 j) (V.cells x.now.row.now) }
{
    (x.one(Op::Loop) + x.calls() + x.one(Op::Dyn)) * x.row.h(4 + j)
}

// No call inside a syscall.
#[tactic(auto, unfolding(air_kit::specs::BlockValues::entry_79))]
fn entry_79<V: MainView>(x: &Seen<'_, V>) -> Felt
    ensures { result ≡ of_row entry_79 (V.cells x.now.row.now) }
{
    x.calls() * x.row.sys()
}

// CALLER inside a syscall alone.
#[tactic(auto, unfolding(air_kit::specs::BlockValues::entry_80))]
fn entry_80<V: MainView>(x: &Seen<'_, V>) -> Felt
    ensures { result ≡ of_row entry_80 (V.cells x.now.row.now) }
{
    x.one(Op::Caller) * (Felt::ONE - x.row.sys())
}

// At HALT no block is open.
#[tactic(auto, unfolding(air_kit::specs::BlockValues::entry_81))]
fn entry_81<V: MainView>(x: &Seen<'_, V>) -> Felt
    ensures { result ≡ of_row entry_81 (V.cells x.now.row.now) }
{
    x.one(Op::Halt) * x.row.addr()
}

// A call's context is its clock and one, a syscall's is 0.
#[tactic(auto, unfolding(air_kit::specs::BlockValues::entry_82))]
fn entry_82<V: MainView>(x: &Seen<'_, V>, y: &Seen<'_, V>) -> Felt
    ensures { result ≡ of_pair entry_82 (V.cells x.now.row.now) (V.cells y.now.row.now) }
{
    x.one(Op::Call) * (y.row.ctx() - x.row.clk() - Felt::ONE)
        + x.one(Op::Syscall) * y.row.ctx()
        + stays_inside(x) * (y.row.ctx() - x.row.ctx())
}

// The frame pointer starts at 2^30 in a call, at 2^31 in a syscall, and moves at FMPUPDATE alone.
#[tactic(auto, unfolding(air_kit::specs::BlockValues::entry_83))]
fn entry_83<V: MainView>(x: &Seen<'_, V>, y: &Seen<'_, V>) -> Felt
    ensures { result ≡ of_pair entry_83 (V.cells x.now.row.now) (V.cells y.now.row.now) }
{
    x.one(Op::Call) * (y.row.fmp() - Felt::from_u32(1 << 30))
        + x.one(Op::Syscall) * (y.row.fmp() - Felt::from_u32(1 << 31))
        + x.one(Op::FmpUpdate) * (y.row.fmp() - x.row.fmp() - x.row.s(0))
        + (stays_inside(x) - x.one(Op::FmpUpdate)) * (y.row.fmp() - x.row.fmp())
}

// The bit of a syscall.
#[tactic(auto, unfolding(air_kit::specs::BlockValues::entry_84))]
fn entry_84<V: MainView>(x: &Seen<'_, V>, y: &Seen<'_, V>) -> Felt
    ensures { result ≡ of_pair entry_84 (V.cells x.now.row.now) (V.cells y.now.row.now) }
{
    x.one(Op::Call) * y.row.sys()
        + x.one(Op::Syscall) * (y.row.sys() - Felt::ONE)
        + stays_inside(x) * (y.row.sys() - x.row.sys())
}

// 85 to 88: a call's function is its child; a syscall keeps the caller's.
#[tactic(auto, unfolding(air_kit::specs::BlockValues::entry_85))]
fn entry_85<V: MainView>(j: usize, x: &Seen<'_, V>, y: &Seen<'_, V>) -> Felt
    requires { j < 4 }
    ensures { result ≡ of_pair (entry_85 j) (V.cells x.now.row.now) (V.cells y.now.row.now) }
{
    x.one(Op::Call) * (y.row.f(j) - x.row.h(j))
        + (Felt::ONE - x.one(Op::Call) - x.returns()) * (y.row.f(j) - x.row.f(j))
}

// The block stays the same but at starts and ends.
#[tactic(auto, unfolding(air_kit::specs::BlockValues::entry_89))]
fn entry_89<V: MainView>(x: &Seen<'_, V>, y: &Seen<'_, V>) -> Felt
    ensures { result ≡ of_pair entry_89 (V.cells x.now.row.now) (V.cells y.now.row.now) }
{
    (Felt::ONE - starts(x) - x.one(Op::End)) * (y.row.addr() - x.row.addr())
}

// The open blocks are counted.
#[tactic(auto, unfolding(air_kit::specs::BlockValues::entry_90))]
fn entry_90<V: MainView>(x: &Seen<'_, V>, y: &Seen<'_, V>) -> Felt
    ensures { result ≡ of_pair entry_90 (V.cells x.now.row.now) (V.cells y.now.row.now) }
{
    y.row.lv() - x.row.lv() - starts(x) + x.one(Op::End)
}

// A span's batches lie one behind the other in the hasher.
#[tactic(auto, unfolding(air_kit::specs::BlockValues::entry_91))]
fn entry_91<V: MainView>(x: &Seen<'_, V>, y: &Seen<'_, V>) -> Felt
    ensures { result ≡ of_pair entry_91 (V.cells x.now.row.now) (V.cells y.now.row.now) }
{
    x.one(Op::Span) * (y.row.ha() - y.row.addr())
        + x.one(Op::Respan) * (y.row.ha() - x.row.ha() - Felt::from_u32(8))
        + x.row.sp() * (y.row.ha() - x.row.ha())
}

/// The first of entries 60 to 69 that is not 0.
#[tactic(auto, unfolding(air_kit::specs::BlockValues::follow_values, air_kit::specs::Places::family))]
fn follow_faults<V: MainView>(x: &Seen<'_, V>, next: &Option<Seen<'_, V>>) -> Option<(u16, Felt)>
    ensures { result ≡ first_fault_of 60 (follow_values (spot_with 0 (V.cells x.now.row.now) (option_map (λ y. V.cells y.row.now) next.now))) }
{
    match next {
        Some(y) => first_nonzero(
            &[
                entry_60(x, y),
                entry_61(x),
                entry_62(x, y),
                entry_63(x, y),
                entry_64(x, y),
                entry_65(x, y),
                entry_66(x, y),
                entry_67(x),
                entry_68(x),
                entry_69(x),
            ],
            60,
        ),
        None => first_nonzero(
            &[
                Felt::ZERO,
                entry_61(x),
                Felt::ZERO,
                Felt::ZERO,
                Felt::ZERO,
                Felt::ZERO,
                Felt::ZERO,
                entry_67(x),
                entry_68(x),
                entry_69(x),
            ],
            60,
        ),
    }
}

/// The first of entries 70 to 81 that is not 0.
#[tactic(auto, unfolding(air_kit::specs::BlockValues::shown_values, air_kit::specs::Places::family))]
fn shown_faults<V: MainView>(x: &Seen<'_, V>, next: &Option<Seen<'_, V>>) -> Option<(u16, Felt)>
    ensures { result ≡ first_fault_of 70 (shown_values (spot_with 0 (V.cells x.now.row.now) (option_map (λ y. V.cells y.row.now) next.now))) }
{
    let _ = next;
    first_nonzero(
        &[
            entry_70(0, x),
            entry_70(1, x),
            entry_70(2, x),
            entry_70(3, x),
            entry_74(x),
            entry_75(0, x),
            entry_75(1, x),
            entry_75(2, x),
            entry_75(3, x),
            entry_79(x),
            entry_80(x),
            entry_81(x),
        ],
        70,
    )
}

/// The first of entries 82 to 91 that is not 0.
#[tactic(auto, unfolding(air_kit::specs::BlockValues::kept_values, air_kit::specs::Places::family))]
fn kept_faults<V: MainView>(x: &Seen<'_, V>, next: &Option<Seen<'_, V>>) -> Option<(u16, Felt)>
    ensures { result ≡ first_fault_of 82 (kept_values (spot_with 0 (V.cells x.now.row.now) (option_map (λ y. V.cells y.row.now) next.now))) }
{
    match next {
        Some(y) => first_nonzero(
            &[
                entry_82(x, y),
                entry_83(x, y),
                entry_84(x, y),
                entry_85(0, x, y),
                entry_85(1, x, y),
                entry_85(2, x, y),
                entry_85(3, x, y),
                entry_89(x, y),
                entry_90(x, y),
                entry_91(x, y),
            ],
            82,
        ),
        None => None,
    }
}

/// The first of entries 60 to 91 that is not 0.
pub fn block_faults<V: MainView>(x: &Seen<'_, V>, next: &Option<Seen<'_, V>>) -> Option<(u16, Felt)>
    ensures { result ≡ first_fault_of 60 (block_values (spot_with 0 (V.cells x.now.row.now) (option_map (λ y. V.cells y.row.now) next.now))) }
{
    let follow = follow_faults(x, next);
    let shown = shown_faults(x, next);
    let kept = kept_faults(x, next);
    or_next(follow, or_next(shown, kept))
}
