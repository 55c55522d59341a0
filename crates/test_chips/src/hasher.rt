ghost use Rattle.std.specs.Prelude.{◌<◌, ◌^◌, length};

use crate::making::{felt, public};
use air_hasher::first_fault;
use air_kit::Place;
use std::alloc::Global;
use std::test::Fail;
use vm_field::{Felt, Memory};
use vm_table::Table;

// A row, a column and the number there.
type Cell = (usize, usize, u64);

// Whether a cell, if any, is one of eight rows.
fn is_within(cell: &Option<Cell>) -> bool {
    match cell {
        Some((row, column, _)) => *row < 8 && *column < 15,
        None => true,
    }
}

// Under constants of zeros the permutation takes zeros to zeros: eight rows of zeros, but for one cell at most.
fn permutation(alloc: Global, cell: &Option<Cell>) -> Result<Table<15>, Memory> {
    let mut table = Table::new(alloc);
    for i in 0..8 {
        let mut cells = [Felt::ZERO; 15];
        if let Some((row, column, number)) = cell {
            if i == *row && *column < 15 {
                cells[*column] = felt(*number);
            }
        }
        table.push_row(&cells)?;
    }
    Ok(table)
}

fn fault_in(alloc: Global, table: &Table<15>, row: usize) -> Result<Option<(u16, u64)>, Memory>
    requires within { row < length table.now }
    requires few { row < 2 ^ 32 }
{
    let next = row + 1;
    let place = Place {
        cur: table.row(row),
        next: if next < table.rows() {
            Some(table.row(next))
        } else {
            None
        },
        row: row as u32,
        lengths: [0; 7],
        left_key: Felt::ZERO,
        public: &public(alloc)?,
    };
    Ok(first_fault(&place).map(|(number, value)| (number, value.value())))
}

// A cell that is changed, if any, the row that is looked at, and its fault.
static CELLS: [(Option<Cell>, usize, Option<(u16, u64)>); 8] = [
    (None, 5, None),
    (None, 7, None),
    (Some((0, 0, 2)), 0, Some((1, 2))),
    (Some((7, 2, 1)), 7, Some((6, 1))),
    (Some((1, 0, 1)), 0, Some((8, 1))),
    (Some((0, 3, 1)), 0, Some((11, 1))),
    (Some((0, 4, 1)), 0, Some((18, 18446743796121182561))),
    (Some((3, 5, 1)), 2, Some((20, 1))),
];

fn faults_are(
    alloc: Global,
    cells: &[(Option<Cell>, usize, Option<(u16, u64)>)],
) -> Result<bool, Memory> {
    for (cell, at, fault) in cells {
        let table = permutation(alloc, cell)?;
        if !is_within(cell) || *at > 7 || table.rows() <= *at {
            return Ok(false);
        }
        if fault_in(alloc, &table, *at)? != *fault {
            return Ok(false);
        }
    }
    Ok(true)
}

#[test]
fn names_first_faults(rt: HostRuntime) -> Result<(), Fail> {
    assert!(rt; faults_are(rt.alloc(), &CELLS)?);
    Ok(())
}
