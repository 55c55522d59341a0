ghost use Rattle.std.specs.Prelude.{◌≡◌, ℕ, ◌+◌, ◌*◌, ◌-◌, ◌<◌, ◌≤◌, [], ◌∷◌, ◌++◌, length, slice_index, All, IfOk};
ghost use Rattle.vm_field.specs.Field.{prime};
ghost use Rattle.facts_memory.specs.MemoryTables.{HaveLimbs};
ghost use Rattle.fill_chips.specs.MemoryLimbs.{limbs_in};
ghost use Rattle.fill_chips.specs.RangeRows.{AreTimes, allowed_steps, range_rows, step_within, times_asked};

use crate::memory::limbs_of;
use std::alloc::Global;
use vm_field::{Felt, Memory};
use vm_table::Table;

// The last value of the table.
const LAST: usize = 65535;

// The steps between its values, the greatest first.
const STEPS: [usize; 8] = [2187, 729, 243, 81, 27, 9, 3, 1];

/// The range table of the asked values and of the limbs of memory's rows.
pub(crate) fn range_table(
    alloc: Global,
    asked: &[u16],
    memory: &Table<14>,
) -> Result<Table<2>, Memory>
    requires limbs { HaveLimbs memory.now }
    requires few { length asked.now + 4 * length memory.now < prime }
    ensures rows { IfOk result (λ table. table ≡ range_rows (asked.now ++ limbs_in memory.now)) }
    ensures small { All (λ v. v < 65536) asked.now }
{
    let times = times_of(alloc, asked, memory)?;
    let mut table = Table::new(alloc);
    let mut v = 0;
    while v < LAST {
        table.push_row(&row_of(times.as_slice(), v))?;
        v += step_within(next_of(times.as_slice(), v) - v);
    }
    table.push_row(&row_of(times.as_slice(), LAST))?;
    Ok(table)
}

// How often each value is asked or is a limb, by value.
fn times_of(alloc: Global, asked: &[u16], memory: &Table<14>) -> Result<Vec<u64>, Memory>
    requires limbs { HaveLimbs memory.now }
    requires few { length asked.now + 4 * length memory.now < prime }
    ensures times { IfOk result (λ times. AreTimes (asked.now ++ limbs_in memory.now) times.items) }
    ensures small { All (λ v. v < 65536) asked.now }
{
    let mut times = zeros(alloc, LAST + 1)?;
    count(&mut times, asked);
    for i in 0..memory.rows() {
        count(&mut times, &limbs_of(memory, i));
    }
    Ok(times)
}

// Counts each of these values once more.
fn count(times: &mut Vec<u64>, values: &[u16])
    requires size { length times.old.items ≡ 65536 }
    requires few { (v : ℕ) → slice_index times.old.items v + length values.now < prime }
    ensures size { length times.new.items ≡ 65536 }
    ensures counts { (v : ℕ) → slice_index times.new.items v ≡ slice_index times.old.items v + times_asked values.now v }
    ensures small { All (λ v. v < 65536) values.now }
{
    for value in values {
        times[usize::from(*value)] += 1;
    }
}

// So many zeros.
fn zeros(alloc: Global, count: usize) -> Result<Vec<u64>, Memory>
    ensures count { IfOk result (λ zeros. length zeros.items ≡ count) }
    ensures zero { IfOk result (λ zeros. (i : ℕ) → slice_index zeros.items i ≡ 0) }
{
    Ok(vec![in alloc; 0; count]?)
}

// The row of a value.
fn row_of(times: &[u64], v: usize) -> [Felt; 2]
    requires within { v < length times.now }
    requires small { v < 65536 }
    requires few { slice_index times.now v < prime }
    ensures { result ≡ slice_index times.now v ∷ v ∷ [] }
{
    [
        Felt::reduced(u128::from(times[v])),
        Felt::from_u32(v as u32),
    ]
}

// The least asked value above one, or the table's last value.
fn next_of(times: &[u64], v: usize) -> usize
    requires values { length times.now ≡ 65536 }
    requires within { v < 65535 }
    ensures above { v < result }
    ensures last { result ≤ 65535 }
    ensures asked { result < 65535 → 0 < slice_index times.now result }
    ensures least { (u : ℕ) → v < u → u < result → slice_index times.now u ≡ 0 }
{
    for value in v + 1..LAST {
        if times[value] > 0 {
            return value;
        }
    }
    LAST
}

// The greatest step that goes no further than a distance.
fn step_within(distance: usize) -> usize
    ensures { result ≡ step_within allowed_steps distance }
{
    for step in STEPS {
        if step <= distance {
            return step;
        }
    }
    0
}
