use super::public;
use air_decoder::first_fault;
use air_kit::{Place, Public};
use std::alloc::Global;
use std::test::Fail;
use vm_field::{Felt, Memory};
use vm_table::Table;

/// A cell that is changed, and the fault that a row then has.
struct Change {
    row: usize,
    column: usize,
    element: u32,
    seen_in: usize,
    number: u16,
    value: u64,
}

// A line is the cell's row and column and the element, and the row, the number and the value of the fault.
macro_rules! changes {
    ($($row:literal $column:literal $element:literal => $seen_in:literal $number:literal $value:literal;)*) => {
        [$(Change {
            row: $row,
            column: $column,
            element: $element,
            seen_in: $seen_in,
            number: $number,
            value: $value,
        }),*]
    };
}

// The clock, a cell of the stack in the first row and in the last one, the bit of spans, the group, and the count of groups.
static CHANGES: [Change; 6] = changes! {
    3 0 4 => 2 10 1;
    0 30 5 => 0 23 5;
    3 45 7 => 3 59 7;
    2 24 1 => 2 61 1;
    1 16 128 => 0 104 128;
    1 25 1 => 0 105 1;
};

// SPAN, NOOP, END and HALT: the code, the address of the open block, and whether a block is open.
static ROWS: [(u8, u32, u32); 4] = [(73, 0, 0), (0, 1, 1), (76, 1, 1), (79, 0, 0)];

fn cells_of(cycle: u32, code: u8, addr: u32, level: u32) -> [Felt; 65] {
    let mut cells = [Felt::ZERO; 65];
    cells[0] = Felt::from_u32(cycle);
    cells[1] = Felt::from_u32(1 << 30);
    cells[8] = Felt::from_u32(addr);
    let mut bits = code;
    for j in 0..7 {
        cells[9 + j] = Felt::from_u32(u32::from(bits % 2));
        bits = bits / 2;
    }
    cells[24] = Felt::from_u32(u32::from(code < 70));
    cells[46] = Felt::from_u32(16);
    cells[49] = Felt::from_u32(addr);
    cells[50] = Felt::from_u32(level);
    cells
}

fn table_of(alloc: Global, change: Option<&Change>) -> Result<Table<65>, Memory> {
    let mut table = Table::new(alloc);
    for (i, (code, addr, level)) in ROWS.iter().enumerate() {
        let mut cells = cells_of(i as u32, *code, *addr, *level);
        if let Some(change) = change {
            if change.row == i && change.column < 65 {
                cells[change.column] = Felt::from_u32(change.element);
            }
        }
        table.push_row(&cells)?;
    }
    Ok(table)
}

fn fault_in(table: &Table<65>, row: usize, public: &Public) -> Option<(u16, Felt)> {
    if 4 <= row || table.rows() != 4 {
        return None;
    }
    let next = if row < 3 {
        Some(table.row(row + 1))
    } else {
        None
    };
    let cur = table.row(row);
    first_fault(&Place {
        cur,
        next,
        row: row as u32,
        lengths: [4, 1, 0, 0, 0, 0, 0],
        left_key: Felt::ZERO,
        public,
    })
}

fn has_no_fault(alloc: Global) -> Result<bool, Memory> {
    let public = public(alloc)?;
    let table = table_of(alloc, None)?;
    for row in 0..4 {
        if fault_in(&table, row, &public).is_some() {
            return Ok(false);
        }
    }
    Ok(true)
}

fn shows(alloc: Global, change: &Change) -> Result<bool, Memory> {
    let public = public(alloc)?;
    let table = table_of(alloc, Some(change))?;
    match fault_in(&table, change.seen_in, &public) {
        Some((number, value)) => Ok(number == change.number && value.value() == change.value),
        None => Ok(false),
    }
}

fn show_all(alloc: Global, changes: &[Change]) -> Result<bool, Memory> {
    for change in changes {
        if !shows(alloc, change)? {
            return Ok(false);
        }
    }
    Ok(true)
}

#[test]
fn a_span_has_no_fault(rt: HostRuntime) -> Result<(), Fail> {
    assert!(rt; has_no_fault(rt.alloc())?);
    Ok(())
}

#[test]
fn a_changed_cell_is_found(rt: HostRuntime) -> Result<(), Fail> {
    assert!(rt; show_all(rt.alloc(), &CHANGES)?);
    Ok(())
}
