//! The sides of constraints: where what must be 0 is a cell less what the cell must be, the cell (docs/CONSTRAINTS.md).
ghost use Rattle.std.specs.Prelude.{◌≡◌, ◌<◌, ◌++◌, slice_get, option_and_then, IsTrue, OnOk};
ghost use Rattle.std.specs.List.{list_all};
ghost use Rattle.vm_field.specs.Signs.{◌⊟◌};
ghost use Rattle.air_kit.specs.Traces.{rows_of};
ghost use Rattle.show_text.specs.RunText.{op_spelled as op_by};
ghost use Rattle.show_text.specs.Sides.{cell_at, cell_in, compared, further, has_column, is_column, is_of_stack, is_untold, must_text, name_of, operation_at, side_of, side_text, sides_of, value_at};

use crate::run::op_spelled;
use air_kit::{Fault, TableName, Trace, table_text};
use decimal_text::append_number;
use show_constraints::column_name;
use vm_field::{Bytes, Felt, Memory};
use vm_ops::{Op, opcode};
use vm_table::{Table, View, column};

/// A cell, seen from the place of a constraint.
#[derive(Clone, Copy)]
pub(crate) enum Cell {
    /// The cell of this column in the place's row.
    Here(usize),
    /// The one in the next row.
    Next(usize),
    /// How many rows a table has.
    Rows(TableName),
}

/// The side of a constraint: the cell, what is in it, and the operation that leaves it, where the constraint compares that.
#[derive(Clone, Copy)]
pub(crate) struct Side {
    cell: Cell,
    value: u64,
    op: Option<Op>,
}

// Constraints from one number to another, and the cell of the first one; that of each later one lies a column further.
type Sides = (u16, u16, Cell);

const MAIN: [Sides; 31] = [
    (9, 9, Cell::Here(column::CLK)),
    (10, 10, Cell::Next(column::CLK)),
    (12, 12, Cell::Here(column::ADDR)),
    (13, 13, Cell::Here(column::CTX)),
    (14, 14, Cell::Here(column::FMP)),
    (15, 15, Cell::Here(column::SYS)),
    (16, 19, Cell::Here(column::F)),
    (20, 20, Cell::Here(column::LV)),
    (21, 21, Cell::Here(column::DEPTH)),
    (22, 22, Cell::Here(column::KEY)),
    (23, 38, Cell::Here(column::S)),
    (39, 39, Cell::Rows(TableName::Kernel)),
    (40, 40, Cell::Rows(TableName::Left)),
    (42, 42, Cell::Here(column::DEPTH)),
    (43, 43, Cell::Here(column::KEY)),
    (44, 59, Cell::Here(column::S)),
    (82, 82, Cell::Next(column::CTX)),
    (83, 83, Cell::Next(column::FMP)),
    (84, 84, Cell::Next(column::SYS)),
    (85, 88, Cell::Next(column::F)),
    (89, 89, Cell::Next(column::ADDR)),
    (90, 90, Cell::Next(column::LV)),
    (91, 91, Cell::Next(column::HA)),
    (104, 104, Cell::Next(column::H)),
    (105, 105, Cell::Next(column::GC)),
    (106, 106, Cell::Next(column::OX)),
    (116, 116, Cell::Next(column::DEPTH)),
    (118, 118, Cell::Next(column::KEY)),
    (119, 134, Cell::Next(column::S)),
    (143, 143, Cell::Next(column::S + 1)),
    (144, 144, Cell::Next(column::S)),
];

const RANGE: [Sides; 2] = [(1, 1, Cell::Here(1)), (2, 2, Cell::Here(1))];

const HASHER: [Sides; 9] = [
    (5, 5, Cell::Here(1)),
    (6, 6, Cell::Here(2)),
    (7, 7, Cell::Here(2)),
    (8, 8, Cell::Next(0)),
    (9, 9, Cell::Next(1)),
    (10, 10, Cell::Next(1)),
    (11, 11, Cell::Here(3)),
    (12, 13, Cell::Here(5)),
    (14, 17, Cell::Next(3)),
];

const BITWISE: [Sides; 7] = [
    (10, 10, Cell::Here(1)),
    (11, 11, Cell::Here(2)),
    (12, 12, Cell::Here(11)),
    (13, 13, Cell::Next(0)),
    (14, 14, Cell::Next(1)),
    (15, 15, Cell::Next(2)),
    (16, 16, Cell::Next(11)),
];

const MEMORY: [Sides; 1] = [(5, 5, Cell::Here(2))];

const KERNEL: [Sides; 1] = [(1, 4, Cell::Here(0))];

/// The side of the constraint of a fault; none where the constraint has none, or the trace no such cell.
pub(crate) fn side_of(trace: &Trace, fault: &Fault) -> Option<Side>
    ensures { result ≡ side_of trace.now fault.now }
{
    let op = operation_at(trace, fault);
    if is_untold(fault.number, op) {
        return None;
    }
    let cell = cell_in(fault.number, sides_of(fault.table))?;
    let value = value_at(trace, fault, cell)?;
    let op = compared(fault, op);
    Some(Side { cell, value, op })
}

/// The operation that a fault's row spells, where it is one of the main table.
pub(crate) fn operation_at(trace: &Trace, fault: &Fault) -> Option<Op>
    ensures { result ≡ operation_at trace.now fault.now }
{
    match fault.table {
        TableName::Main => operation_in(&trace.main, fault.row as usize),
        TableName::Range
        | TableName::Hasher
        | TableName::Bitwise
        | TableName::Memory
        | TableName::Kernel
        | TableName::Left => None,
    }
}

fn operation_in(main: &Table<65>, row: usize) -> Option<Op>
    ensures { result ≡ option_and_then op_by (slice_get main.now row) }
{
    if row < main.rows() {
        op_spelled(&main.row(row))
    } else {
        None
    }
}

// The operation whose work the constraint compares.
fn compared(fault: &Fault, op: Option<Op>) -> Option<Op>
    ensures { result ≡ compared fault.now op }
{
    if is_of_stack(fault.table, fault.number) {
        op
    } else {
        None
    }
}

// Whether the constraint compares what an operation leaves in a cell of the stack.
fn is_of_stack(table: TableName, number: u16) -> bool
    ensures { result ≡ is_of_stack table number }
{
    match table {
        TableName::Main => 119 <= number && number <= 134,
        TableName::Range
        | TableName::Hasher
        | TableName::Bitwise
        | TableName::Memory
        | TableName::Kernel
        | TableName::Left => false,
    }
}

// What EQZ, EQ and INV leave on top is compared by a witness or as a factor, and of a borrow it is said that it is a bit: this does not
// tell what the cell must be.
fn is_untold(number: u16, op: Option<Op>) -> bool
    ensures { result ≡ is_untold number op }
{
    match op {
        None => false,
        Some(op) => {
            number == 119
                && (opcode(op) == opcode(Op::Eqz)
                    || opcode(op) == opcode(Op::Eq)
                    || opcode(op) == opcode(Op::Inv))
                || number == 144 && opcode(op) == opcode(Op::U32Sub)
        }
    }
}

#[tactic(auto, unfolding(crate::specs::Sides::sides_of))]
fn sides_of(table: TableName) -> &'static [Sides]
    ensures are { result.now ≡ sides_of table }
    ensures within { IsTrue (list_all has_column result.now) }
{
    match table {
        TableName::Main => &MAIN,
        TableName::Range => &RANGE,
        TableName::Hasher => &HASHER,
        TableName::Bitwise => &BITWISE,
        TableName::Memory => &MEMORY,
        TableName::Kernel => &KERNEL,
        TableName::Left => &[],
    }
}

#[tactic(auto, unfolding(crate::specs::Sides::cell_in))]
fn cell_in(number: u16, sides: &[Sides]) -> Option<Cell>
    requires { IsTrue (list_all has_column sides.now) }
    ensures { result ≡ cell_in number sides.now }
{
    match sides {
        [] => None,
        [(first, last, cell), sides @ ..] => {
            if *first <= number && number <= *last {
                Some(further(*cell, usize::from(number - *first)))
            } else {
                cell_in(number, sides)
            }
        }
    }
}

fn further(cell: Cell, columns: usize) -> Cell
    requires column { IsTrue (is_column cell) }
    requires columns { columns < 65536 }
    ensures { result ≡ further cell columns }
{
    match cell {
        Cell::Here(column) => Cell::Here(column + columns),
        Cell::Next(column) => Cell::Next(column + columns),
        Cell::Rows(table) => Cell::Rows(table),
    }
}

// What is in a cell; none where the trace has no such cell.
fn value_at(trace: &Trace, fault: &Fault, cell: Cell) -> Option<u64>
    ensures { result ≡ value_at trace.now fault.now cell }
{
    let row = fault.row as usize;
    match cell {
        Cell::Here(column) => cell_at(trace, fault.table, row, column),
        Cell::Next(column) => cell_at(trace, fault.table, row + 1, column),
        Cell::Rows(table) => Some(trace.rows(table) as u64),
    }
}

fn cell_at(trace: &Trace, table: TableName, row: usize, column: usize) -> Option<u64>
    ensures { result ≡ cell_at (rows_of trace.now table) row column }
{
    match table {
        TableName::Main => cell_of(&trace.main, row, column),
        TableName::Range => cell_of(&trace.range, row, column),
        TableName::Hasher => cell_of(&trace.hasher, row, column),
        TableName::Bitwise => cell_of(&trace.bitwise, row, column),
        TableName::Memory => cell_of(&trace.memory, row, column),
        TableName::Kernel => cell_of(&trace.kernel, row, column),
        TableName::Left => cell_of(&trace.left, row, column),
    }
}

fn cell_of<const W: usize>(table: &Table<W>, row: usize, column: usize) -> Option<u64>
    ensures { result ≡ cell_at table.now row column }
{
    if row < table.rows() && column < W {
        Some(table.row(row).cell(column).value())
    } else {
        None
    }
}

/// Adds a side: what the cell is, and what it must be.
///
/// # Errors
///
/// `Memory` where the system gave none for the longer text.
pub(crate) fn append_side(text: &mut Bytes, fault: &Fault, side: &Side) -> Result<(), Memory>
    ensures { OnOk result (text.new ≡ text.old ++ side_text fault.now side.now) }
{
    append_name(text, fault.table, side.cell)?;
    text.append(b" is ")?;
    append_number(text, side.value)?;
    append_must(text, side.op)?;
    append_number(text, less(side.value, fault.value).value())
}

// The number less the element.
fn less(number: u64, element: Felt) -> Felt
    ensures { result ≡ number ⊟ element }
{
    Felt::reduced(u128::from(number)) - element
}

fn append_name(text: &mut Bytes, table: TableName, cell: Cell) -> Result<(), Memory>
    ensures { OnOk result (text.new ≡ text.old ++ name_of table cell) }
{
    match cell {
        Cell::Here(column) => text.append(column_name(table, column).as_bytes()),
        Cell::Next(column) => {
            text.append(column_name(table, column).as_bytes())?;
            text.append(b"'")
        }
        Cell::Rows(other) => {
            text.append(table_text(other).as_bytes())?;
            text.append(b" rows")
        }
    }
}

fn append_must(text: &mut Bytes, op: Option<Op>) -> Result<(), Memory>
    ensures { OnOk result (text.new ≡ text.old ++ must_text op) }
{
    match op {
        None => text.append(b", must be "),
        Some(op) => {
            text.append(b", ")?;
            text.append(vm_ops::text(op).as_bytes())?;
            text.append(b" leaves ")
        }
    }
}
