ghost use Rattle.std.specs.Prelude.{◌≡◌, ◌*◌, ◌^◌, ◌<◌, ◌≤◌, length};
ghost use Rattle.air_kit.specs.Traces.{HasCounts, rows_of};
ghost use Rattle.checker.specs.Pieces.{ends_at, rows_before, rows_below, starts_at};

use crate::parts::Part;
use air_kit::{TableName, Trace};
use std::ops::Range;

/// How many rows a table has.
pub(crate) fn rows_in(trace: &Trace, name: TableName) -> usize
    requires counts { HasCounts trace.now }
    ensures is { result ≡ length (rows_of trace.now name) }
    ensures few { result ≤ 2 ^ 22 }
{
    trace.rows(name)
}

// How many rows so many tables have, the first ones.
fn rows_before(trace: &Trace, tables: usize) -> usize
    requires counts { HasCounts trace.now }
    requires tables { tables ≤ 7 }
    ensures is { result ≡ rows_before trace.now tables }
    ensures few { result ≤ tables * 2 ^ 22 }
{
    let mut rows = 0;
    for i in 0..tables {
        rows += rows_in(trace, TableName::EVERY[i]);
    }
    rows
}

/// Which rows of a table some pieces have.
pub(crate) fn rows_of_part(trace: &Trace, name: TableName, part: Part) -> Range<usize>
    requires counts { HasCounts trace.now }
    ensures start { result.start ≡ rows_below trace.now name (starts_at trace.now part) }
    ensures end { result.end ≡ rows_below trace.now name (ends_at trace.now part) }
    ensures grows { result.start ≤ result.end }
    ensures within { result.end ≤ length (rows_of trace.now name) }
    ensures few { result.end ≤ 2 ^ 22 }
{
    let all = part.rows(rows_before(trace, TableName::EVERY.len()));
    let before = rows_before(trace, name.number());
    let rows = rows_in(trace, name);
    all.start.saturating_sub(before).min(rows)..all.end.saturating_sub(before).min(rows)
}
