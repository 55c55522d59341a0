ghost use Rattle.std.specs.Prelude.{◌≡◌, ℕ, ◌^◌, ◌<◌, ◌≤◌, List, length, IfSome, OnSome};
ghost use Rattle.std.specs.Thread.{IsSync};
ghost use Rattle.air_kit.specs.Traces.{HasCounts, rows_of};
ghost use Rattle.bus_kit.specs.ByBus.{HaveRoom};
ghost use Rattle.checker.specs.Counting.{AreReadable, AreWithin, IsPartCounted, IsRowCounted, IsTableCounted, IsTraceCounted, room_before, room_behind};
ghost use Rattle.checker.specs.Settings.{claim_in};

use crate::numbering::rows_in;
use crate::parts::Part;
use crate::setting::Setting;
use air_kit::{TableName, Trace};
use bus_chips::{
    tuples_bitwise, tuples_hasher, tuples_kernel, tuples_left, tuples_memory, tuples_range,
};
use bus_kit::{Seed, Tallies};
use std::alloc::Global;
use std::ops::Range;
use std::thread;
use std::thread::Threads;
use vm_io::Gate;

/// What the rows of all tables and the statement ask and give on each bus; none where memory was refused. The rows are counted
/// in so many pieces, each with its share of each table, of which each goes through the gate.
pub(crate) fn count_all<R: Threads + Sync, G: Gate>(
    rt: &R,
    alloc: Global,
    seed: Seed,
    trace: &Trace,
    setting: &Setting<'_>,
    pieces: usize,
    gate: &G,
) -> Option<Tallies>
    requires counts { HasCounts trace.now }
    requires readable { AreReadable trace.now.main }
    requires pieces { (1 ≤ pieces) × (pieces ≤ 64) }
    ensures { IfSome result (IsTraceCounted (claim_in setting.now) trace.now) }
{
    count_part(rt, alloc, seed, gate, trace, setting, Part::all(pieces))
}

// The tuples of some pieces: each half of them is counted by itself, at once, and one's tallies are added to the other's.
#[cycle(halves)]
fn count_part<R: Threads + Sync, G: Gate>(
    rt: &R,
    alloc: Global,
    seed: Seed,
    gate: &G,
    trace: &Trace,
    setting: &Setting<'_>,
    part: Part,
) -> Option<Tallies>
    requires counts { HasCounts trace.now }
    requires readable { AreReadable trace.now.main }
    ensures { IfSome result (IsPartCounted (claim_in setting.now) trace.now part) }
{
    if part.is_single() {
        gate.enter(part.low);
        return count_tables(alloc, seed, trace, setting, part);
    }
    let (lower, upper) = part.halves();
    let front = move || -> Option<Tallies>
        requires { IsSync R.row × IsSync G.row × HasCounts trace.now × AreReadable trace.now.main }
        ensures { IfSome result (IsPartCounted (claim_in setting.entry.now) trace.entry.now lower) }
    { count_part(rt, alloc, seed, gate, trace, setting, lower) };
    let back = move || -> Option<Tallies>
        requires { IsSync R.row × IsSync G.row × HasCounts trace.now × AreReadable trace.now.main }
        ensures { IfSome result (IsPartCounted (claim_in setting.entry.now) trace.entry.now upper) }
    { count_part(rt, alloc, seed, gate, trace, setting, upper) };
    let (left, right) = thread::join(rt, front, back);
    let mut tallies = left?;
    tallies.absorb(right?).ok()?;
    Some(tallies)
}

// Table by table, in their order.
fn count_tables(
    alloc: Global,
    seed: Seed,
    trace: &Trace,
    setting: &Setting<'_>,
    part: Part,
) -> Option<Tallies>
    requires counts { HasCounts trace.now }
    requires readable { AreReadable trace.now.main }
    ensures { IfSome result (IsPartCounted (claim_in setting.now) trace.now part) }
{
    let mut tallies = Tallies::new(alloc, seed);
    for name in TableName::EVERY {
        count_table(trace, setting, part, name, &mut tallies)?;
    }
    Some(tallies)
}

// The tuples of a table's share: each table is cut by itself, since a row takes many times as long to count in one table as in another.
fn count_table(
    trace: &Trace,
    setting: &Setting<'_>,
    part: Part,
    name: TableName,
    tallies: &mut Tallies,
) -> Option<()>
    requires counts { HasCounts trace.now }
    requires readable { AreReadable trace.now.main }
    requires room { AreWithin (room_before name) tallies.old }
    ensures counted { OnSome result (IsTableCounted (claim_in setting.now) trace.now
        part name tallies.old tallies.new) }
    ensures room { OnSome result (AreWithin (room_behind name) tallies.new) }
{
    let Range { start, end } = part.rows(rows_in(trace, name));
    for row in start..end {
        count_row(trace, setting, name, row, tallies)?;
    }
    Some(())
}

/// The tuples of a row; none where memory was refused.
pub(crate) fn count_row(
    trace: &Trace,
    setting: &Setting<'_>,
    name: TableName,
    row: usize,
    tallies: &mut Tallies,
) -> Option<()>
    requires counts { HasCounts trace.now }
    requires readable { AreReadable trace.now.main }
    requires within { row < length (rows_of trace.now name) }
    requires small { row < 2 ^ 32 }
    requires room { HaveRoom tallies.old }
    ensures { OnSome result (IsRowCounted (claim_in setting.now) trace.now name row tallies.old tallies.new) }
{
    match name {
        TableName::Main => bus_main::tuples(&setting.place(&trace.main, row), tallies).ok(),
        TableName::Range => tuples_range(&setting.place(&trace.range, row), tallies).ok(),
        TableName::Hasher => tuples_hasher(&setting.place(&trace.hasher, row), tallies).ok(),
        TableName::Bitwise => tuples_bitwise(&setting.place(&trace.bitwise, row), tallies).ok(),
        TableName::Memory => tuples_memory(&setting.place(&trace.memory, row), tallies).ok(),
        TableName::Kernel => tuples_kernel(&setting.place(&trace.kernel, row), tallies).ok(),
        TableName::Left => tuples_left(&setting.place(&trace.left, row), tallies).ok(),
    }
}
