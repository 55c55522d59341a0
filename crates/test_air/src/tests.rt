mod counts;
mod decoder;
mod dynamic;
mod limbs;
mod stack;

use air_kit::{Place, Public, Seen};
use rpo_hash::Params;
use std::alloc::Global;
use vm_field::{Felt, Felts, Memory, Word, Words};
use vm_state::Statement;
use vm_table::Table;

// Whose entries: those of the stack, 115 to 139, those of limbs, 140 to 147, or those of dynamic blocks, 148 to 151.
#[derive(Clone, Copy)]
enum Part {
    Stack,
    Limbs,
    Dynamic,
}

// A statement of zeros, under constants that are all 0.
fn public(alloc: Global) -> Result<Public, Memory> {
    let params = Params {
        first: [[Felt::ZERO; 12]; 7],
        second: [[Felt::ZERO; 12]; 7],
    };
    let outputs = Felts::copied(alloc, &[Felt::ZERO; 16])?;
    let statement = Statement::new(Word::ZERO, Words::new(alloc), Felts::new(alloc), outputs);
    Ok(Public { params, statement })
}

// A row with this number in this column; none where that is no cell of a row.
fn with(mut row: [Felt; 65], cell: &(usize, u64)) -> Option<[Felt; 65]> {
    if 65 <= cell.0 {
        return None;
    }
    row[cell.0] = Felt::try_from_u64(cell.1).ok()?;
    Some(row)
}

// A row with these numbers in these columns, and 0 in others.
fn row_of(cells: &[(usize, u64)]) -> Option<[Felt; 65]> {
    let mut row = [Felt::ZERO; 65];
    for cell in cells {
        row = with(row, cell)?;
    }
    Some(row)
}

// The first fault of a row, with the row behind it.
fn fault_of(
    alloc: Global,
    part: Part,
    cur: &[Felt; 65],
    next: &[Felt; 65],
) -> Result<Option<(u16, u64)>, Memory> {
    let mut table = Table::<65>::new(alloc);
    table.push_row(cur)?;
    table.push_row(next)?;
    let place = Place {
        cur: table.row(0),
        next: Some(table.row(1)),
        row: 0,
        lengths: [2; 7],
        left_key: Felt::ZERO,
        public: &public(alloc)?,
    };
    let fault = match part {
        Part::Stack => air_stack::first_fault(&place),
        Part::Limbs => air_u32::first_fault(&place),
        Part::Dynamic => air_decoder::dyn_fault_seen(&place, &Seen::of(&place.cur)),
    };
    match fault {
        Some((number, value)) => Ok(Some((number, value.value()))),
        None => Ok(None),
    }
}
