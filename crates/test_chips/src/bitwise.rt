ghost use Rattle.std.specs.Prelude.{◌<◌, ◌^◌, length};

use crate::making::{felt, public};
use air_bitwise::first_fault;
use air_kit::Place;
use std::alloc::Global;
use std::test::Fail;
use vm_field::{Felt, Memory};
use vm_table::Table;

// The rows of the exclusive or of 1 and 2, which is 3: the last one shows them, and those before it zeros.
static BEFORE: [u64; 12] = [1, 0, 0, 0, 0, 0, 0, 0, 0, 0, 0, 0];

static LAST: [u64; 12] = [1, 1, 2, 1, 0, 0, 0, 0, 1, 0, 0, 3];

// A row, a column and the number there.
type Cell = (usize, usize, u64);

// Whether a cell, if any, is one of eight rows.
fn is_within(cell: &Option<Cell>) -> bool {
    match cell {
        Some((row, column, _)) => *row < 8 && *column < 12,
        None => true,
    }
}

// These eight rows, but for one cell, or just as they are.
fn operation(alloc: Global, cell: &Option<Cell>) -> Result<Table<12>, Memory> {
    let mut table = Table::new(alloc);
    for i in 0..8 {
        let numbers = if i < 7 { &BEFORE } else { &LAST };
        let mut cells = [Felt::ZERO; 12];
        for j in 0..12 {
            cells[j] = felt(numbers[j]);
        }
        if let Some((row, column, number)) = cell {
            if i == *row && *column < 12 {
                cells[*column] = felt(*number);
            }
        }
        table.push_row(&cells)?;
    }
    Ok(table)
}

fn fault_in(alloc: Global, table: &Table<12>, row: usize) -> Result<Option<(u16, u64)>, Memory>
    requires within { row < length table.now }
    requires few { row < 2 ^ 32 }
{
    let next = row + 1;
    let place = Place {
        cur: table.row(row),
        next: if next < table.rows() {
            Some(table.row(next))
        } else {
            None
        },
        row: row as u32,
        lengths: [0; 7],
        left_key: Felt::ZERO,
        public: &public(alloc)?,
    };
    Ok(first_fault(&place).map(|(number, value)| (number, value.value())))
}

// A cell that is changed, if any, the row that is looked at, and its fault. A value below 0 is the prime less its size.
static CELLS: [(Option<Cell>, usize, Option<(u16, u64)>); 11] = [
    (None, 0, None),
    (None, 6, None),
    (None, 7, None),
    (Some((0, 0, 2)), 0, Some((1, 2))),
    (Some((7, 3, 2)), 7, Some((2, 2))),
    (Some((0, 1, 1)), 0, Some((10, 1))),
    (Some((0, 11, 5)), 0, Some((12, 5))),
    (Some((7, 0, 0)), 6, Some((13, 18446744069414584320))),
    (Some((7, 6, 1)), 6, Some((14, 18446744069414584313))),
    (Some((6, 2, 1)), 6, Some((15, 18446744069414584305))),
    (Some((7, 11, 4)), 6, Some((16, 1))),
];

fn faults_are(
    alloc: Global,
    cells: &[(Option<Cell>, usize, Option<(u16, u64)>)],
) -> Result<bool, Memory> {
    for (cell, at, fault) in cells {
        let table = operation(alloc, cell)?;
        if !is_within(cell) || *at > 7 || table.rows() <= *at {
            return Ok(false);
        }
        if fault_in(alloc, &table, *at)? != *fault {
            return Ok(false);
        }
    }
    Ok(true)
}

#[test]
fn names_first_faults(rt: HostRuntime) -> Result<(), Fail> {
    assert!(rt; faults_are(rt.alloc(), &CELLS)?);
    Ok(())
}
