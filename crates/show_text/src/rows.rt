//! Rows of a table, cell by cell: a line for each, with the cells that are not 0 by their columns' names.
ghost use Rattle.std.specs.Prelude.{◌≡◌, ◌≤◌, ◌<◌, ◌^◌, [], ◌++◌, length, map, slice_index_or, OnOk};
ghost use Rattle.air_kit.specs.Traces.{rows_of};
ghost use Rattle.show_text.specs.RowText.{cell_text, cells_text, line_of, main_line, row_line, rows_text};

use crate::run::append_operation;
use air_kit::{TableName, Trace};
use decimal_text::append_number;
use show_constraints::column_names;
use vm_field::{Bytes, Felt, Memory};
use vm_table::{MainView, View};

/// Adds the rows of a table from one to another, both included, as far as there are any: a line for each.
///
/// # Errors
///
/// `Memory` where the system gave none for the longer text.
pub fn append_rows(
    text: &mut Bytes,
    trace: &Trace,
    table: TableName,
    first: usize,
    last: usize,
) -> Result<(), Memory>
    requires { last ≤ 2 ^ 32 }
    ensures { OnOk result (text.new ≡ text.old ++ rows_text trace.now table first last) }
{
    for i in first..trace.rows(table).min(last + 1) {
        append_line(text, trace, table, i)?;
    }
    Ok(())
}

/// Adds the row of this number of a table.
///
/// # Errors
///
/// `Memory` where the system gave none for the longer text.
pub(crate) fn append_line(
    text: &mut Bytes,
    trace: &Trace,
    table: TableName,
    i: usize,
) -> Result<(), Memory>
    requires { i < length (rows_of trace.now table) }
    ensures { OnOk result (text.new ≡ text.old ++ line_of table i (slice_index_or (rows_of trace.now table) i [])) }
{
    let names = column_names(table);
    match table {
        TableName::Main => append_main_row(text, i, &trace.main.row(i)),
        TableName::Range => append_row(text, names, i, &trace.range.row(i)),
        TableName::Hasher => append_row(text, names, i, &trace.hasher.row(i)),
        TableName::Bitwise => append_row(text, names, i, &trace.bitwise.row(i)),
        TableName::Memory => append_row(text, names, i, &trace.memory.row(i)),
        TableName::Kernel => append_row(text, names, i, &trace.kernel.row(i)),
        TableName::Left => append_row(text, names, i, &trace.left.row(i)),
    }
}

// A row of the main table has its operation behind the number.
fn append_main_row<V: MainView>(text: &mut Bytes, number: usize, row: &V) -> Result<(), Memory>
    ensures { OnOk result (text.new ≡ text.old ++ main_line number (V.cells row.now)) }
{
    text.append(b"row ")?;
    append_number(text, number as u64)?;
    text.append(b" ")?;
    append_operation(text, row)?;
    append_cells(text, column_names(TableName::Main), row)?;
    text.append(b"\n")
}

fn append_row<const W: usize, V: View<W>>(
    text: &mut Bytes,
    names: &[&str],
    number: usize,
    row: &V,
) -> Result<(), Memory>
    requires { length names.now ≡ W }
    ensures { OnOk result (text.new ≡ text.old ++ row_line (map (λ name. name.now) names.now) number (V.cells row.now)) }
{
    text.append(b"row ")?;
    append_number(text, number as u64)?;
    append_cells(text, names, row)?;
    text.append(b"\n")
}

// The cells that are not 0.
fn append_cells<const W: usize, V: View<W>>(
    text: &mut Bytes,
    names: &[&str],
    row: &V,
) -> Result<(), Memory>
    requires { length names.now ≡ W }
    ensures { OnOk result (text.new ≡ text.old ++ cells_text (map (λ name. name.now) names.now) (V.cells row.now)) }
{
    for (column, name) in names.iter().enumerate() {
        append_cell(text, name, row.cell(column))?;
    }
    Ok(())
}

fn append_cell(text: &mut Bytes, name: &str, value: Felt) -> Result<(), Memory>
    ensures { OnOk result (text.new ≡ text.old ++ cell_text name.now value) }
{
    if value.value() == 0 {
        return Ok(());
    }
    text.append(b" ")?;
    text.append(name.as_bytes())?;
    text.append(b"=")?;
    append_number(text, value.value())
}
