//! Which rows ask and give the tuple of a refusal, and how often, and those that its key says beside them.
ghost use Rattle.std.specs.Prelude.{◌≡◌, ◌≤◌, ◌++◌, IfOk, OnOk};
ghost use Rattle.air_kit.specs.Acceptance.{AreZero};
ghost use Rattle.air_kit.specs.Traces.{HasCounts, claim_of};
ghost use Rattle.show_app.specs.CountedText.{counted_text, is_counted, is_row, is_told, key_line, key_lines, one_of, rows_told, told_line, told_rows};

use air_kit::{Public, TableName, Trace};
use buses::Bus;
use checker::{RowCount, Seed, counts_by_row};
use show_text::{
    append_row_beside, append_row_count, append_rows_line, append_statement_count, key_rows,
    table_by,
};
use std::alloc::Global;
use vm_field::{Bytes, Felt, Memory};

// How many are told of the rows that ask, and of those that give.
const MOST_TOLD: usize = 16;

/// Adds how often the statement gives a tuple on a bus, where it does, the first rows that ask it and the first that give it, how many rows
/// do each, and the rows that the tuple's key says and that do neither. It counts all rows once more.
pub fn append_counted(
    text: &mut Bytes,
    alloc: Global,
    seed: Seed,
    trace: &Trace,
    public: &Public,
    bus: Bus,
    tuple: &[Felt],
) -> Result<(), Memory>
    requires counts { HasCounts trace.now }
    requires zero { AreZero (claim_of public.now trace.now) trace.now }
    ensures { OnOk result (text.new ≡ text.old ++ counted_text (claim_of public.now trace.now) trace.now bus tuple.now) }
{
    let counts = counts_by_row(alloc, seed, trace, public, bus, tuple)?;
    append_statement_count(text, counts.statement)?;
    append_rows(text, trace, bus, tuple, counts.rows.as_slice())
}

fn append_rows(
    text: &mut Bytes,
    trace: &Trace,
    bus: Bus,
    tuple: &[Felt],
    rows: &[RowCount],
) -> Result<(), Memory>
    ensures { OnOk result (text.new ≡ text.old ++ rows_told trace.now bus tuple.now rows.now) }
{
    append_told_rows(text, trace, rows)?;
    append_key_rows(
        text,
        trace,
        table_by(bus),
        rows,
        &key_rows(trace, bus, tuple),
    )
}

fn append_told_rows(text: &mut Bytes, trace: &Trace, rows: &[RowCount]) -> Result<(), Memory>
    ensures { OnOk result (text.new ≡ text.old ++ told_rows trace.now 0 0 rows.now) }
{
    let mut asking = 0;
    let mut giving = 0;
    for row in rows {
        append_told(text, trace, asking, giving, row)?;
        asking += one_of(row.asked);
        giving += one_of(row.given);
    }
    append_rows_line(text, asking, giving)
}

// A row behind so many that ask and so many that give.
fn append_told(
    text: &mut Bytes,
    trace: &Trace,
    asking: usize,
    giving: usize,
    row: &RowCount,
) -> Result<(), Memory>
    ensures { OnOk result (text.new ≡ text.old ++ told_line trace.now asking giving row.now) }
{
    if is_told(asking, giving, row) {
        append_row_count(text, trace, row.table, row.row, row.asked, row.given)
    } else {
        Ok(())
    }
}

fn is_told(asking: usize, giving: usize, row: &RowCount) -> bool
    ensures { result ≡ is_told asking giving row.now }
{
    0 < row.asked && asking < MOST_TOLD || 0 < row.given && giving < MOST_TOLD
}

// 1 where a count is not 0.
fn one_of(count: u128) -> usize
    ensures is { result ≡ one_of count }
    ensures small { result ≤ 1 }
{
    if count == 0 { 0 } else { 1 }
}

// Rows that the key of a tuple says, as far as they are not among those that ask or give it.
fn append_key_rows(
    text: &mut Bytes,
    trace: &Trace,
    table: TableName,
    counts: &[RowCount],
    rows: &[Option<usize>],
) -> Result<(), Memory>
    ensures { OnOk result (text.new ≡ text.old ++ key_lines trace.now table counts.now rows.now) }
{
    for row in rows {
        append_key_row(text, trace, table, counts, *row)?;
    }
    Ok(())
}

fn append_key_row(
    text: &mut Bytes,
    trace: &Trace,
    table: TableName,
    counts: &[RowCount],
    row: Option<usize>,
) -> Result<(), Memory>
    ensures { OnOk result (text.new ≡ text.old ++ key_line trace.now table counts.now row) }
{
    match row {
        Some(row) if !is_counted(table, row, counts) => {
            append_row_beside(text, trace, table, row)
        }
        _ => Ok(()),
    }
}

fn is_counted(table: TableName, row: usize, counts: &[RowCount]) -> bool
    ensures { result ≡ is_counted table row counts.now }
{
    for count in counts {
        if is_row(table, row, count) {
            return true;
        }
    }
    false
}

#[tactic(auto, unfolding(crate::specs::CountedText::is_row))]
fn is_row(table: TableName, row: usize, count: &RowCount) -> bool
    ensures { result ≡ is_row table row count.now }
{
    count.table.number() == table.number() && count.row as usize == row
}
