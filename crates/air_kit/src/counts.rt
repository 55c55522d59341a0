ghost use Rattle.std.specs.Prelude.{◌≡◌, ◌<◌, ◌↔◌, IsTrue};
ghost use Rattle.air_kit.specs.Traces.{HasCounts, least_rows, most_rows, rows_at_once};
ghost use Rattle.air_kit.specs.Counts.{may_have};

use crate::trace::{TableName, Trace};
use vm_field::MOST_KERNEL;

// A table has from `least` to `most` rows, and grows by `step` of them at once.
#[derive(Clone, Copy)]
struct Limits {
    least: usize,
    most: usize,
    step: usize,
}

fn from_to(least: usize, most: usize, step: usize) -> Limits
    ensures least { result.least ≡ least }
    ensures most { result.most ≡ most }
    ensures step { result.step ≡ step }
{
    Limits { least, most, step }
}

// A permutation and a bitwise operation have eight rows each.
fn limits_of(table: TableName) -> Limits
    ensures least { result.least ≡ least_rows table }
    ensures most { result.most ≡ most_rows table }
    ensures step { result.step ≡ rows_at_once table }
    ensures some { 0 < result.step }
{
    match table {
        TableName::Main => from_to(1, 1 << 19, 1),
        TableName::Range => from_to(1, 1 << 17, 1),
        TableName::Hasher => from_to(0, 1 << 22, 8),
        TableName::Bitwise => from_to(0, 1 << 22, 8),
        TableName::Memory => from_to(0, 1 << 19, 1),
        TableName::Kernel => from_to(0, MOST_KERNEL, 1),
        TableName::Left => from_to(0, 1 << 20, 1),
    }
}

/// Whether a table may have so many rows.
#[tactic(auto, unfolding(crate::specs::Counts::may_have))]
pub fn may_have(table: TableName, count: usize) -> bool
    ensures { result ≡ may_have table count }
{
    let limits = limits_of(table);
    limits.least <= count && count <= limits.most && count % limits.step == 0
}

/// Whether each table has as many rows as it may, that is, whether the trace can be checked.
pub fn has_counts(trace: &Trace) -> bool
    ensures { IsTrue result ↔ HasCounts trace.now }
{
    for table in TableName::EVERY {
        if !may_have(table, trace.rows(table)) {
            return false;
        }
    }
    true
}
