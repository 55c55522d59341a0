ghost use Rattle.std.specs.Prelude.{◌+◌, ◌<◌, ◌^◌};

use std::alloc::Global;
use std::test::Fail;
use vm_field::{Felt, Memory};
use vm_table::{Table, View, tables_cross};

fn felt(number: u64) -> Felt {
    Felt::try_from_u64(number).unwrap_or(Felt::ZERO)
}

// Five rows: row i has the elements 10 i, 10 i + 1 and 10 i + 2.
fn counted(alloc: Global) -> Result<Table<3>, Memory> {
    let mut table = Table::new(alloc);
    table.reserve(5)?;
    for i in 0..5u64 {
        table.push_row(&[felt(10 * i), felt(10 * i + 1), felt(10 * i + 2)])?;
    }
    Ok(table)
}

// Whether a view shows the row of this number.
fn shows<V: View<3>>(view: &V, i: usize) -> bool
    requires { i < 9 }
{
    let first = 10 * i as u64;
    view.cell(0).value() == first
        && view.cell(1).value() == first + 1
        && view.cell(2).value() == first + 2
}

fn shows_all(table: &Table<3>) -> bool {
    if table.rows() != 5 {
        return false;
    }
    for i in 0..4 {
        let pair = table.pair(i);
        if !shows(&pair.cur, i) || !shows(&pair.next, i + 1) || !shows(&table.row(i + 1), i + 1) {
            return false;
        }
    }
    true
}

// So many rows, each with its number in every column.
fn numbered(alloc: Global, rows: u32) -> Result<Table<3>, Memory> {
    let mut table = Table::new(alloc);
    for i in 0..rows {
        table.push_row(&[Felt::from_u32(i); 3])?;
    }
    Ok(table)
}

// Whether the cells are so many numbers, from the first on.
fn are_numbers(cells: &[Felt], first: usize, count: usize) -> bool
    requires { first + count < 2 ^ 32 }
{
    if cells.len() != count {
        return false;
    }
    for k in 0..count {
        if cells[k].value() != (first + k) as u64 {
            return false;
        }
    }
    true
}

// Whether each column of each block shows the numbers of its rows, and no more.
fn shows_columns(table: &Table<3>, rows: usize) -> bool
    requires { rows < 2 ^ 31 }
{
    if table.rows() != rows || table.blocks() != rows.div_ceil(256) {
        return false;
    }
    for block in 0..table.blocks() {
        let first = 256 * block;
        let count = (rows - first).min(256);
        for column in 0..3 {
            if !are_numbers(table.column(block, column), first, count) {
                return false;
            }
        }
    }
    true
}

#[test]
fn reads_rows_and_pairs(rt: HostRuntime) -> Result<(), Fail> {
    tables_cross::<3>();
    assert!(rt; shows_all(&counted(rt.alloc())?));
    Ok(())
}

#[test]
fn columns_stand_side_by_side(rt: HostRuntime) -> Result<(), Fail> {
    let mut all = true;
    for rows in [1, 255, 256, 257, 513] {
        all = all && shows_columns(&numbered(rt.alloc(), rows)?, rows as usize);
    }
    assert!(rt; all);
    Ok(())
}

// Whether the second column shows the numbers of the rows but for a 7 in row 256, and the others all numbers.
fn shows_change(table: &Table<3>) -> bool {
    if table.rows() != 258 {
        return false;
    }
    let (before, after) = (table.row(255), table.row(257));
    let changed = table.row(256);
    are_numbers(table.column(0, 1), 0, 256)
        && are_numbers(table.column(1, 0), 256, 2)
        && are_numbers(table.column(1, 2), 256, 2)
        && before.cell(1).value() == 255
        && changed.cell(1).value() == 7
        && after.cell(1).value() == 257
}

#[test]
fn one_cell_changes(rt: HostRuntime) -> Result<(), Fail> {
    let mut table = numbered(rt.alloc(), 258)?;
    if table.rows() == 258 {
        table.set_cell(256, 1, Felt::from_u32(7));
    }
    assert!(rt; shows_change(&table));
    Ok(())
}
