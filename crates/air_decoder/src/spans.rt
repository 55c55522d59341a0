//! Entries 92 to 114: how a span's rows take the groups and the immediates of its batches.
ghost use Rattle.std.specs.Prelude.{◌≡◌, ◌<◌, option_map};
ghost use Rattle.air_kit.specs.SpanValues.{opcode_in, rest, rest_flag, goes_on, size_flags, unused, entry_92, entry_95, entry_96, entry_103, entry_104, entry_105, entry_106, entry_107, entry_108, entry_109, entry_110, entry_111, entry_112, entry_113, entry_114, batch_values, group_values, span_values};
ghost use Rattle.air_kit.specs.Flags.{flag};
ghost use Rattle.air_kit.specs.Places.{first_fault_of};
ghost use Rattle.air_blocks.specs.Entries.{of_row, of_pair, spot_with};

use air_blocks::batches;
use air_kit::{Seen, first_nonzero, or_next};
use vm_field::Felt;
use vm_ops::Op;
use vm_table::MainView;

// The number of the row's operation.
#[tactic(auto, unfolding(air_kit::specs::SpanValues::opcode_in))]
fn opcode_in<V: MainView>(x: &Seen<'_, V>) -> Felt
    ensures { result ≡ opcode_in (V.cells x.now.row.now) }
{
    x.row.b(0)
        + Felt::from_u32(2) * x.row.b(1)
        + Felt::from_u32(4) * x.row.b(2)
        + Felt::from_u32(8) * x.row.b(3)
        + Felt::from_u32(16) * x.row.b(4)
        + Felt::from_u32(32) * x.row.b(5)
        + Felt::from_u32(64) * x.row.b(6)
}

// What is left of the group without the row's operation.
#[tactic(auto, unfolding(air_kit::specs::SpanValues::rest))]
fn rest<V: MainView>(x: &Seen<'_, V>) -> Felt
    ensures { result ≡ rest (V.cells x.now.row.now) }
{
    x.row.h(0) - opcode_in(x)
}

// 1 where something is left, else 0: the witness is the inverse.
#[tactic(auto, unfolding(air_kit::specs::SpanValues::rest_flag))]
fn rest_flag<V: MainView>(x: &Seen<'_, V>) -> Felt
    ensures { result ≡ rest_flag (V.cells x.now.row.now) }
{
    rest(x) * x.row.w(3)
}

// 1 where the group goes on: something is left of it, or a PUSH waits for its NOOP.
#[tactic(auto, unfolding(air_kit::specs::SpanValues::goes_on))]
fn goes_on<V: MainView>(x: &Seen<'_, V>) -> Felt
    ensures { result ≡ goes_on (flag (V.cells x.now.row.now)) (V.cells x.now.row.now) }
{
    rest_flag(x) + x.one(Op::Push) * (Felt::ONE - rest_flag(x))
}

// How many of the flags of positions in use are set.
#[tactic(auto, unfolding(air_kit::specs::SpanValues::size_flags))]
fn size_flags<V: MainView>(x: &Seen<'_, V>) -> Felt
    ensures { result ≡ size_flags (V.cells x.now.row.now) }
{
    x.row.c(0) + x.row.c(1) + x.row.c(2)
}

// 1 where position q of a batch is not in use, from q = 1 on.
#[tactic(auto, unfolding(air_kit::specs::SpanValues::unused))]
fn unused<V: MainView>(q: usize, x: &Seen<'_, V>) -> Felt
    ensures { result ≡ unused q (V.cells x.now.row.now) }
{
    if q == 1 {
        Felt::ONE - x.row.c(0) - x.row.c(1) - x.row.c(2)
    } else if q < 4 {
        Felt::ONE - x.row.c(0) - x.row.c(1)
    } else {
        Felt::ONE - x.row.c(0)
    }
}

// 92 to 94: the flags of positions in use are 0 or 1.
#[tactic(auto, unfolding(air_kit::specs::SpanValues::entry_92))]
fn entry_92<V: MainView>(j: usize, x: &Seen<'_, V>) -> Felt
    requires { j < 3 }
    ensures { result ≡ of_row (entry_92 j) (V.cells x.now.row.now) }
{
    batches(x) * x.row.c(j) * (x.row.c(j) - Felt::ONE)
}

// And at most one is 1.
#[tactic(auto, unfolding(air_kit::specs::SpanValues::entry_95))]
fn entry_95<V: MainView>(x: &Seen<'_, V>) -> Felt
    ensures { result ≡ of_row entry_95 (V.cells x.now.row.now) }
{
    batches(x) * size_flags(x) * (size_flags(x) - Felt::ONE)
}

// 96 to 102: a position that is not in use is 0.
#[tactic(auto, unfolding(air_kit::specs::SpanValues::entry_96))]
fn entry_96<V: MainView>(j: usize, x: &Seen<'_, V>) -> Felt
    requires { j < 7 }
    ensures { result ≡ of_row (entry_96 j) (V.cells x.now.row.now) }
{
    batches(x) * unused(j + 1, x) * x.row.h(j + 1)
}

// One of the positions that a smaller count would leave out is not 0: no more are in use than need be.
#[tactic(auto, unfolding(air_kit::specs::SpanValues::entry_103))]
fn entry_103<V: MainView>(x: &Seen<'_, V>) -> Felt
    ensures { result ≡ of_row entry_103 (V.cells x.now.row.now) }
{
    let r = x.row;
    batches(x)
        * (r.c(0)
            * (r.h(4) * r.w(0) + r.h(5) * r.w(1) + r.h(6) * r.w(2) + r.h(7) * r.w(3) - Felt::ONE)
            + r.c(1) * (r.h(2) * r.w(0) + r.h(3) * r.w(1) - Felt::ONE)
            + r.c(2) * (r.h(1) * r.w(0) - Felt::ONE))
}

// The first operation has position 0 as its group.
#[tactic(auto, unfolding(air_kit::specs::SpanValues::entry_104))]
fn entry_104<V: MainView>(x: &Seen<'_, V>, y: &Seen<'_, V>) -> Felt
    ensures { result ≡ of_pair entry_104 (V.cells x.now.row.now) (V.cells y.now.row.now) }
{
    batches(x) * (y.row.h(0) - x.row.h(0))
}

// All other positions are left.
#[tactic(auto, unfolding(air_kit::specs::SpanValues::entry_105))]
fn entry_105<V: MainView>(x: &Seen<'_, V>, y: &Seen<'_, V>) -> Felt
    ensures { result ≡ of_pair entry_105 (V.cells x.now.row.now) (V.cells y.now.row.now) }
{
    batches(x)
        * (y.row.gc()
            - Felt::from_u32(7) * x.row.c(0)
            - Felt::from_u32(3) * x.row.c(1)
            - x.row.c(2))
}

// And it is the first of its group.
#[tactic(auto, unfolding(air_kit::specs::SpanValues::entry_106))]
fn entry_106<V: MainView>(x: &Seen<'_, V>, y: &Seen<'_, V>) -> Felt
    ensures { result ≡ of_pair entry_106 (V.cells x.now.row.now) (V.cells y.now.row.now) }
{
    batches(x) * y.row.ox()
}

// Where something is left of the group, the flag is 1.
#[tactic(auto, unfolding(air_kit::specs::SpanValues::entry_107))]
fn entry_107<V: MainView>(x: &Seen<'_, V>) -> Felt
    ensures { result ≡ of_row entry_107 (V.cells x.now.row.now) }
{
    x.row.sp() * rest(x) * (Felt::ONE - rest_flag(x))
}

// A group that goes on goes on in the next row.
#[tactic(auto, unfolding(air_kit::specs::SpanValues::entry_108))]
fn entry_108<V: MainView>(x: &Seen<'_, V>, y: &Seen<'_, V>) -> Felt
    ensures { result ≡ of_pair entry_108 (V.cells x.now.row.now) (V.cells y.now.row.now) }
{
    x.row.sp() * goes_on(x) * (Felt::ONE - y.row.sp())
}

// With what is left, one operation down.
#[tactic(auto, unfolding(air_kit::specs::SpanValues::entry_109))]
fn entry_109<V: MainView>(x: &Seen<'_, V>, y: &Seen<'_, V>) -> Felt
    ensures { result ≡ of_pair entry_109 (V.cells x.now.row.now) (V.cells y.now.row.now) }
{
    x.row.sp() * goes_on(x) * (Felt::from_u32(128) * y.row.h(0) - rest(x))
}

// And one place up.
#[tactic(auto, unfolding(air_kit::specs::SpanValues::entry_110))]
fn entry_110<V: MainView>(x: &Seen<'_, V>, y: &Seen<'_, V>) -> Felt
    ensures { result ≡ of_pair entry_110 (V.cells x.now.row.now) (V.cells y.now.row.now) }
{
    x.row.sp() * goes_on(x) * (y.row.ox() - x.row.ox() - Felt::ONE)
}

// A new group begins at place 0.
#[tactic(auto, unfolding(air_kit::specs::SpanValues::entry_111))]
fn entry_111<V: MainView>(x: &Seen<'_, V>, y: &Seen<'_, V>) -> Felt
    ensures { result ≡ of_pair entry_111 (V.cells x.now.row.now) (V.cells y.now.row.now) }
{
    x.row.sp() * (Felt::ONE - goes_on(x)) * y.row.sp() * y.row.ox()
}

// A batch ends where no position is left.
#[tactic(auto, unfolding(air_kit::specs::SpanValues::entry_112))]
fn entry_112<V: MainView>(x: &Seen<'_, V>, y: &Seen<'_, V>) -> Felt
    ensures { result ≡ of_pair entry_112 (V.cells x.now.row.now) (V.cells y.now.row.now) }
{
    x.row.sp() * (Felt::ONE - y.row.sp()) * x.row.gc()
}

// An immediate takes a position, and so does a new group.
#[tactic(auto, unfolding(air_kit::specs::SpanValues::entry_113))]
fn entry_113<V: MainView>(x: &Seen<'_, V>, y: &Seen<'_, V>) -> Felt
    ensures { result ≡ of_pair entry_113 (V.cells x.now.row.now) (V.cells y.now.row.now) }
{
    x.row.sp() * y.row.sp() * (y.row.gc() - x.row.gc() + x.one(Op::Push) + Felt::ONE - goes_on(x))
}

// A group has nine operations at most.
#[tactic(auto, unfolding(air_kit::specs::SpanValues::entry_114))]
fn entry_114<V: MainView>(x: &Seen<'_, V>) -> Felt
    ensures { result ≡ of_row entry_114 (V.cells x.now.row.now) }
{
    let ox = x.row.ox();
    x.row.sp()
        * ox
        * (ox - Felt::from_u32(1))
        * (ox - Felt::from_u32(2))
        * (ox - Felt::from_u32(3))
        * (ox - Felt::from_u32(4))
        * (ox - Felt::from_u32(5))
        * (ox - Felt::from_u32(6))
        * (ox - Felt::from_u32(7))
        * (ox - Felt::from_u32(8))
}

/// The first of entries 92 to 106 that is not 0.
#[tactic(auto, unfolding(air_kit::specs::SpanValues::batch_values, air_kit::specs::Places::family))]
pub(crate) fn batch_faults<V: MainView>(
    x: &Seen<'_, V>,
    next: &Option<Seen<'_, V>>,
) -> Option<(u16, Felt)>
    ensures { result ≡ first_fault_of 92 (batch_values (spot_with 0 (V.cells x.now.row.now) (option_map (λ y. V.cells y.row.now) next.now))) }
{
    match next {
        Some(y) => first_nonzero(
            &[
                entry_92(0, x),
                entry_92(1, x),
                entry_92(2, x),
                entry_95(x),
                entry_96(0, x),
                entry_96(1, x),
                entry_96(2, x),
                entry_96(3, x),
                entry_96(4, x),
                entry_96(5, x),
                entry_96(6, x),
                entry_103(x),
                entry_104(x, y),
                entry_105(x, y),
                entry_106(x, y),
            ],
            92,
        ),
        None => first_nonzero(
            &[
                entry_92(0, x),
                entry_92(1, x),
                entry_92(2, x),
                entry_95(x),
                entry_96(0, x),
                entry_96(1, x),
                entry_96(2, x),
                entry_96(3, x),
                entry_96(4, x),
                entry_96(5, x),
                entry_96(6, x),
                entry_103(x),
                Felt::ZERO,
                Felt::ZERO,
                Felt::ZERO,
            ],
            92,
        ),
    }
}

/// The first of entries 107 to 114 that is not 0.
#[tactic(auto, unfolding(air_kit::specs::SpanValues::group_values, air_kit::specs::Places::family))]
fn group_faults<V: MainView>(x: &Seen<'_, V>, next: &Option<Seen<'_, V>>) -> Option<(u16, Felt)>
    ensures { result ≡ first_fault_of 107 (group_values (spot_with 0 (V.cells x.now.row.now) (option_map (λ y. V.cells y.row.now) next.now))) }
{
    match next {
        Some(y) => first_nonzero(
            &[
                entry_107(x),
                entry_108(x, y),
                entry_109(x, y),
                entry_110(x, y),
                entry_111(x, y),
                entry_112(x, y),
                entry_113(x, y),
                entry_114(x),
            ],
            107,
        ),
        None => first_nonzero(
            &[
                entry_107(x),
                Felt::ZERO,
                Felt::ZERO,
                Felt::ZERO,
                Felt::ZERO,
                Felt::ZERO,
                Felt::ZERO,
                entry_114(x),
            ],
            107,
        ),
    }
}

/// The first of entries 92 to 114 that is not 0.
pub(crate) fn span_faults<V: MainView>(
    x: &Seen<'_, V>,
    next: &Option<Seen<'_, V>>,
) -> Option<(u16, Felt)>
    ensures { result ≡ first_fault_of 92 (span_values (spot_with 0 (V.cells x.now.row.now) (option_map (λ y. V.cells y.row.now) next.now))) }
{
    let batch = batch_faults(x, next);
    let group = group_faults(x, next);
    or_next(batch, group)
}
