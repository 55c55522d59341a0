ghost use Rattle.std.specs.Prelude.{◌≡◌, ◌^◌, ◌<◌, ◌≤◌, length};
ghost use Rattle.std.specs.Thread.{IsSync};
ghost use Rattle.air_kit.specs.Acceptance.{IsRowsAnswer};
ghost use Rattle.air_kit.specs.Places.{first_fault_of};
ghost use Rattle.air_kit.specs.Traces.{HasCounts, claim_of, rows_of, values_at};
ghost use Rattle.air_kit.specs.declared.trace.TableName.TheVariants as table;
ghost use Rattle.checker.specs.Answers.{IsPartAnswer, IsRowAnswer, IsTableAnswer};
ghost use Rattle.checker.specs.Pieces.{ends_at, starts_at};
ghost use Rattle.checker.specs.Settings.{claim_in};

use crate::numbering::rows_of_part;
use crate::parts::Part;
use crate::setting::Setting;
use air_kit::{Fault, Public, Seen, TableName, Trace};
use std::ops::Range;
use std::thread;
use std::thread::Threads;
use vm_field::Felt;
use vm_io::Gate;

// The most pieces that are tested in halves.
const HALVED_PIECES: usize = 32;

/// The first entry of a trace that is not 0, by table, row and number, with its value; none where all are 0. The rows of all
/// tables are tested in so many pieces, of which each goes through the gate.
pub fn check_rows<R: Threads + Sync, G: Gate>(
    rt: &R,
    trace: &Trace,
    public: &Public,
    pieces: usize,
    gate: &G,
) -> Option<Fault>
    requires counts { HasCounts trace.now }
    requires pieces { (1 ≤ pieces) × (pieces ≤ 64) }
    ensures exact { IsRowsAnswer (claim_of public.now trace.now) trace.now result }
{
    let setting = Setting::of(trace, public);
    part_fault(rt, gate, trace, &setting, Part::all(pieces))
}

// The first fault of some pieces: each half of them is tested by itself, at once.
#[cycle(halves)]
fn part_fault<R: Threads + Sync, G: Gate>(
    rt: &R,
    gate: &G,
    trace: &Trace,
    setting: &Setting<'_>,
    part: Part,
) -> Option<Fault>
    requires counts { HasCounts trace.now }
    ensures { IsPartAnswer (claim_in setting.now) trace.now part result }
{
    if part.is_single() {
        gate.enter(part.low);
        return piece_fault(rt, trace, setting, part);
    }
    let (lower, upper) = part.halves();
    let front = move || -> Option<Fault>
        requires { IsSync R.row × IsSync G.row × HasCounts trace.now }
        ensures { IsPartAnswer (claim_in setting.entry.now) trace.entry.now lower result }
    { part_fault(rt, gate, trace, setting, lower) };
    let back = move || -> Option<Fault>
        requires { IsSync R.row × IsSync G.row × HasCounts trace.now }
        ensures { IsPartAnswer (claim_in setting.entry.now) trace.entry.now upper result }
    { part_fault(rt, gate, trace, setting, upper) };
    let (left, right) = thread::join(rt, front, back);
    left.or(right)
}

// The first fault of a piece. A row of the hasher's table takes several times as long as another one, and the cut counts rows: so where
// there are several pieces, each is tested in two halves at once, and one of such rows alone does not keep the others waiting.
fn piece_fault<R: Threads + Sync>(
    rt: &R,
    trace: &Trace,
    setting: &Setting<'_>,
    part: Part,
) -> Option<Fault>
    requires counts { HasCounts trace.now }
    ensures { IsPartAnswer (claim_in setting.now) trace.now part result }
{
    if part.pieces == 1 || HALVED_PIECES < part.pieces {
        return first_fault(trace, setting, part);
    }
    let (lower, upper) = part.doubled().halves();
    let front = move || -> Option<Fault>
        requires { HasCounts trace.now }
        ensures { IsPartAnswer (claim_in setting.entry.now) trace.entry.now lower result }
    { first_fault(trace, setting, lower) };
    let back = move || -> Option<Fault>
        requires { HasCounts trace.now }
        ensures { IsPartAnswer (claim_in setting.entry.now) trace.entry.now upper result }
    { first_fault(trace, setting, upper) };
    let (first, second) = thread::join(rt, front, back);
    first.or(second)
}

// Table by table, in their order.
fn first_fault(trace: &Trace, setting: &Setting<'_>, part: Part) -> Option<Fault>
    requires counts { HasCounts trace.now }
    ensures { IsPartAnswer (claim_in setting.now) trace.now part result }
{
    for name in TableName::EVERY {
        if let Some(fault) = table_fault(trace, setting, part, name) {
            return Some(fault);
        }
    }
    None
}

// The first fault of a table.
fn table_fault(trace: &Trace, setting: &Setting<'_>, part: Part, name: TableName) -> Option<Fault>
    requires counts { HasCounts trace.now }
    ensures { IsTableAnswer (claim_in setting.now) trace.now (starts_at trace.now part) (ends_at trace.now part) name result }
{
    let Range { start, end } = rows_of_part(trace, name, part);
    for row in start..end {
        if let Some((number, value)) = row_fault(trace, setting, name, row) {
            return Some(Fault {
                table: name,
                row: row as u32,
                number,
                value,
            });
        }
    }
    None
}

/// The first fault of a row: the number and the value of its first entry that is not 0.
pub(crate) fn row_fault(
    trace: &Trace,
    setting: &Setting<'_>,
    name: TableName,
    row: usize,
) -> Option<(u16, Felt)>
    requires counts { HasCounts trace.now }
    requires within { row < length (rows_of trace.now name) }
    requires small { row < 2 ^ 32 }
    ensures { IsRowAnswer (claim_in setting.now) trace.now name row result }
{
    match name {
        TableName::Main => main_fault(trace, setting, row),
        TableName::Range => { air_lookup::first_fault_range(&setting.place(&trace.range, row)) }
        TableName::Hasher => air_hasher::first_fault(&setting.place(&trace.hasher, row)),
        TableName::Bitwise => air_bitwise::first_fault(&setting.place(&trace.bitwise, row)),
        TableName::Memory => air_memory::first_fault(&setting.place(&trace.memory, row)),
        TableName::Kernel => { air_lookup::first_fault_kernel(&setting.place(&trace.kernel, row)) }
        TableName::Left => None,
    }
}

// The first fault of a row of the main table: by its operations and blocks, by its stack, by its numbers of 32 bits, by what a
// dynamic block is hashed from.
fn main_fault(trace: &Trace, setting: &Setting<'_>, row: usize) -> Option<(u16, Felt)>
    requires within { row < length trace.now.main }
    requires small { row < 2 ^ 32 }
    ensures { result ≡ first_fault_of 1 (values_at (claim_in setting.now) trace.now table.Main row) }
{
    let place = setting.place(&trace.main, row);
    let x = Seen::of(&place.cur);
    if let Some(fault) = air_decoder::first_fault_seen(&place, &x) {
        return Some(fault);
    }
    if let Some(fault) = air_stack::first_fault_seen(&place, &x) {
        return Some(fault);
    }
    if let Some(fault) = air_u32::first_fault_seen(&place, &x) {
        return Some(fault);
    }
    air_decoder::dyn_fault_seen(&place, &x)
}
