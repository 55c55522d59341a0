//! How often the statement and rows ask and give a tuple.
ghost use Rattle.std.specs.Prelude.{◌≡◌, ◌++◌, decimal, slice_get, OnOk};
ghost use Rattle.show_text.specs.CountText.{operation_behind, operation_text, row_count_line, rows_line, statement_line, times_text};

use crate::run::append_operation;
use air_kit::{TableName, Trace, table_text};
use decimal_text::append_number;
use vm_field::{Bytes, Memory};
use vm_table::Table;

/// Adds a row by its table and number, in the main table with its operation, and how often it asks the tuple and how often it gives it,
/// where that is not 0.
///
/// # Errors
///
/// `Memory` where the system gave none for the longer text.
pub fn append_row_count(
    text: &mut Bytes,
    trace: &Trace,
    table: TableName,
    row: u32,
    asked: u128,
    given: u128,
) -> Result<(), Memory>
    ensures { OnOk result (text.new ≡ text.old ++ row_count_line trace.now table row asked given) }
{
    text.append(table_text(table).as_bytes())?;
    text.append(b" row ")?;
    append_number(text, u64::from(row))?;
    append_operation_behind(text, trace, table, row as usize)?;
    append_times(text, b" asks ", asked)?;
    append_times(text, b" gives ", given)?;
    text.append(b"\n")
}

/// Adds how often the statement gives the tuple, where it does.
///
/// # Errors
///
/// `Memory` where the system gave none for the longer text.
pub fn append_statement_count(text: &mut Bytes, given: u128) -> Result<(), Memory>
    ensures { OnOk result (text.new ≡ text.old ++ statement_line given) }
{
    if given == 0 {
        return Ok(());
    }
    text.append(b"statement gives ")?;
    append_count(text, given)?;
    text.append(b"\n")
}

/// Adds how many rows ask the tuple, and how many give it.
///
/// # Errors
///
/// `Memory` where the system gave none for the longer text.
pub fn append_rows_line(text: &mut Bytes, asking: usize, giving: usize) -> Result<(), Memory>
    ensures { OnOk result (text.new ≡ text.old ++ rows_line asking giving) }
{
    text.append(b"rows asking ")?;
    append_number(text, asking as u64)?;
    text.append(b" giving ")?;
    append_number(text, giving as u64)?;
    text.append(b"\n")
}

// The operation behind the number of a row of the main table.
fn append_operation_behind(
    text: &mut Bytes,
    trace: &Trace,
    table: TableName,
    row: usize,
) -> Result<(), Memory>
    ensures { OnOk result (text.new ≡ text.old ++ operation_behind trace.now table row) }
{
    match table {
        TableName::Main => append_operation_at(text, &trace.main, row),
        TableName::Range
        | TableName::Hasher
        | TableName::Bitwise
        | TableName::Memory
        | TableName::Kernel
        | TableName::Left => Ok(()),
    }
}

fn append_operation_at(text: &mut Bytes, main: &Table<65>, row: usize) -> Result<(), Memory>
    ensures { OnOk result (text.new ≡ text.old ++ operation_text (slice_get main.now row)) }
{
    if row < main.rows() {
        text.append(b" ")?;
        append_operation(text, &main.row(row))
    } else {
        Ok(())
    }
}

// A count that is not 0, behind a word.
fn append_times(text: &mut Bytes, word: &[u8], count: u128) -> Result<(), Memory>
    ensures { OnOk result (text.new ≡ text.old ++ times_text word.now count) }
{
    if count == 0 {
        return Ok(());
    }
    text.append(word)?;
    append_count(text, count)
}

// A count of tuples is a number of 128 bits.
fn append_count(text: &mut Bytes, count: u128) -> Result<(), Memory>
    ensures { OnOk result (text.new ≡ text.old ++ decimal count) }
{
    let mut buffer = itoa::Buffer::new();
    text.append(buffer.format(count).as_bytes())
}
