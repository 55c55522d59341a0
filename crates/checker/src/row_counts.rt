//! How often the statement and each row ask and give one tuple on one bus.
ghost use Rattle.std.specs.Prelude.{◌≡◌, ◌+◌, ◌*◌, ◌^◌, ◌<◌, ◌++◌, if◌then◌else◌, ◌==◌, length, IfOk, IfSome, OnSome};
ghost use Rattle.std.specs.List.{sum_by};
ghost use Rattle.air_kit.specs.Acceptance.{AreZero, asked_on, given_on};
ghost use Rattle.air_kit.specs.Traces.{HasCounts, claim_of, rows_of};
ghost use Rattle.bus_kit.specs.ByBus.{HaveRoom};
ghost use Rattle.checker.specs.Counting.{AreReadable, AreWithin, IsRowCounted, room_before, room_behind};
ghost use Rattle.checker.specs.RowCounts.{beside, counts_on, row_count, statement_gives, table_counts, where_some};
ghost use Rattle.checker.specs.Settings.{claim_in};

use crate::counting::count_row;
use crate::numbering::rows_in;
use crate::setting::Setting;
use air_kit::{Place, Public, TableName, Trace};
use bus_kit::{Seed, Tallies};
use buses::Bus;
use std::alloc::Global;
use vm_field::{Felt, Memory};

/// How often a row asks a tuple, and how often it gives it: one of the two at least once.
#[derive(Clone, Copy, Debug)]
pub struct RowCount {
    /// The row's table.
    pub table: TableName,
    /// Its number there, from 0 on.
    pub row: u32,
    /// How often it asks the tuple.
    pub asked: u128,
    /// How often it gives it.
    pub given: u128,
}

/// How often a tuple is asked and given on a bus, and by what.
#[derive(Drop)]
pub struct RowCounts {
    /// How often the statement gives it. It asks none.
    pub statement: u128,
    /// Each row that asks or gives it, in the order of the tables and of their rows.
    pub rows: Vec<RowCount>,
}

// A tuple on a bus, and how often the statement gives it.
#[derive(Clone, Copy)]
struct Sought<'a> {
    bus: Bus,
    tuple: &'a [Felt],
    statement: u128,
}

/// Which rows ask and give a tuple on a bus, and how often, and how often the statement gives it: where the bus refuses the trace, these
/// are the counts of the refusal, by rows. All rows are counted once more, one after another.
///
/// # Errors
///
/// `Memory` where the system gave none for the counts.
pub fn counts_by_row(
    alloc: Global,
    seed: Seed,
    trace: &Trace,
    public: &Public,
    bus: Bus,
    tuple: &[Felt],
) -> Result<RowCounts, Memory>
    requires counts { HasCounts trace.now }
    requires zero { AreZero (claim_of public.now trace.now) trace.now }
    ensures statement { IfOk result (λ c. c.statement ≡ statement_gives (claim_of public.now trace.now) bus tuple.now) }
    ensures rows { IfOk result (λ c. c.rows.items ≡ counts_on (claim_of public.now trace.now) trace.now bus tuple.now) }
    ensures asked { IfOk result (λ c. sum_by (λ r. r.asked) c.rows.items ≡ asked_on (claim_of public.now trace.now) trace.now bus tuple.now) }
    ensures given { IfOk result (λ c.
        c.statement + sum_by (λ r. r.given) c.rows.items ≡ given_on (claim_of public.now trace.now) trace.now bus tuple.now) }
{
    // a table says of its rows that they are elements
    let _ = trace.main.rows();
    let setting = Setting::of(trace, public);
    match count_tables(alloc, seed, trace, &setting, bus, tuple) {
        Some(counts) => Ok(counts),
        None => Err(Memory::Memory),
    }
}

// The statement, and then table by table.
fn count_tables(
    alloc: Global,
    seed: Seed,
    trace: &Trace,
    setting: &Setting<'_>,
    bus: Bus,
    tuple: &[Felt],
) -> Option<RowCounts>
    requires counts { HasCounts trace.now }
    requires readable { AreReadable trace.now.main }
    ensures statement { IfSome result (λ c. c.statement ≡ statement_gives (claim_in setting.now) bus tuple.now) }
    ensures rows { IfSome result (λ c. c.rows.items ≡ counts_on (claim_in setting.now) trace.now bus tuple.now) }
{
    let statement = count_statement(alloc, seed, trace, setting, bus, tuple)?;
    let sought = Sought {
        bus,
        tuple,
        statement,
    };
    let mut tallies = Tallies::new(alloc, seed);
    let mut rows = Vec::new(alloc);
    for name in TableName::EVERY {
        count_table(trace, setting, sought, name, &mut tallies, &mut rows)?;
    }
    Some(RowCounts { statement, rows })
}

// How often the statement gives the tuple: it stands before the first row, which gives nothing else where no row is behind it.
fn count_statement(
    alloc: Global,
    seed: Seed,
    trace: &Trace,
    setting: &Setting<'_>,
    bus: Bus,
    tuple: &[Felt],
) -> Option<u128>
    requires counts { HasCounts trace.now }
    requires readable { AreReadable trace.now.main }
    ensures { IfSome result (λ n. n ≡ statement_gives (claim_in setting.now) bus tuple.now) }
{
    let mut tallies = Tallies::new(alloc, seed);
    let first = Place {
        cur: trace.main.row(0),
        next: None,
        row: 0,
        lengths: setting.lengths,
        left_key: setting.left_key,
        public: setting.public,
    };
    bus_main::tuples(&first, &mut tallies).ok()?;
    let (_, given) = tallies.counts(bus, tuple);
    Some(given)
}

// The rows of a table that ask or give the tuple.
fn count_table(
    trace: &Trace,
    setting: &Setting<'_>,
    sought: Sought<'_>,
    name: TableName,
    tallies: &mut Tallies,
    rows: &mut Vec<RowCount>,
) -> Option<()>
    requires counts { HasCounts trace.now }
    requires readable { AreReadable trace.now.main }
    requires statement { sought.statement ≡ statement_gives (claim_in setting.now) sought.bus sought.tuple.now }
    requires room { AreWithin (room_before name) tallies.old }
    ensures rows { OnSome result (rows.new.items
        ≡ rows.old.items ++ table_counts (claim_in setting.now) trace.now sought.entry.bus sought.entry.tuple.now name) }
    ensures room { OnSome result (AreWithin (room_behind name) tallies.new) }
{
    for row in 0..rows_in(trace, name) {
        let count = count_in_row(trace, setting, sought, name, row, tallies)?;
        keep(rows, count)?;
    }
    Some(())
}

// Adds counts of which one at least is not 0.
fn keep(rows: &mut Vec<RowCount>, count: RowCount) -> Option<()>
    ensures { OnSome result (rows.new.items ≡ rows.old.items ++ where_some count) }
{
    if count.asked == 0 && count.given == 0 {
        return Some(());
    }
    rows.push(count).ok()
}

// Both counts of a row: by how much those in the tallies grow where its tuples are counted.
fn count_in_row(
    trace: &Trace,
    setting: &Setting<'_>,
    sought: Sought<'_>,
    name: TableName,
    row: usize,
    tallies: &mut Tallies,
) -> Option<RowCount>
    requires counts { HasCounts trace.now }
    requires readable { AreReadable trace.now.main }
    requires statement { sought.statement ≡ statement_gives (claim_in setting.now) sought.bus sought.tuple.now }
    requires within { row < length (rows_of trace.now name) }
    requires small { row < 2 ^ 32 }
    requires room { HaveRoom tallies.old }
    ensures count { IfSome result (λ r. r ≡ row_count (claim_in setting.now) trace.now sought.entry.bus sought.entry.tuple.now name row) }
    ensures counted { IfSome result (λ r. IsRowCounted (claim_in setting.now) trace.now name row tallies.old tallies.new) }
{
    let before = tallies.counts(sought.bus, sought.tuple);
    count_row(trace, setting, name, row, tallies)?;
    let after = tallies.counts(sought.bus, sought.tuple);
    Some(RowCount {
        table: name,
        row: row as u32,
        asked: after.0 - before.0,
        given: after.1 - before.1 - beside(name, row, sought.statement),
    })
}

// How much of what is counted at a row the statement gives.
fn beside(name: TableName, row: usize, statement: u128) -> u128
    ensures { result ≡ beside name row statement }
{
    match name {
        TableName::Main if row == 0 => statement,
        _ => 0,
    }
}
