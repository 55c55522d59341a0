//! Rows beside a tuple; and those of memory beside a tuple of the memory bus, which have its context, address and clock and give another
//! one.
ghost use Rattle.std.specs.Prelude.{◌≡◌, ◌<◌, [], ◌++◌, length, slice_get, slice_index_or, OnOk};
ghost use Rattle.air_kit.specs.Traces.{rows_of};
ghost use Rattle.show_text.specs.BesideText.{access_of, accesses_beside, beside_line, is_at, is_beside, lines_beside, row_beside};

use crate::rows::append_line;
use air_kit::{TableName, Trace, table_text};
use buses::Bus;
use chip_columns::MemoryView;
use vm_field::{Bytes, Felt, Memory};

// How many rows of memory are told at most.
const MOST_BESIDE: usize = 16;

/// Adds a row beside a tuple by its table and number, in the main table with its operation, and its cells that are not 0. Adds nothing where
/// there is no such row.
///
/// # Errors
///
/// `Memory` where the system gave none for the longer text.
pub fn append_row_beside(
    text: &mut Bytes,
    trace: &Trace,
    table: TableName,
    row: usize,
) -> Result<(), Memory>
    ensures { OnOk result (text.new ≡ text.old ++ row_beside table row (slice_get (rows_of trace.now table) row)) }
{
    if row < trace.rows(table) {
        append_beside(text, trace, table, row)
    } else {
        Ok(())
    }
}

fn append_beside(
    text: &mut Bytes,
    trace: &Trace,
    table: TableName,
    row: usize,
) -> Result<(), Memory>
    requires { row < length (rows_of trace.now table) }
    ensures { OnOk result (text.new ≡ text.old ++ beside_line table row (slice_index_or (rows_of trace.now table) row [])) }
{
    text.append(b"beside ")?;
    text.append(table_text(table).as_bytes())?;
    text.append(b" ")?;
    append_line(text, trace, table, row)
}

/// Adds the first rows of memory, 16 at most, that have the context, the address and the clock of a tuple of the memory bus and give
/// another one: a line for each. Adds nothing for a tuple of another bus.
///
/// # Errors
///
/// `Memory` where the system gave none for the longer text.
pub fn append_accesses_beside(
    text: &mut Bytes,
    trace: &Trace,
    bus: Bus,
    tuple: &[Felt],
) -> Result<(), Memory>
    ensures { OnOk result (text.new ≡ text.old ++ accesses_beside trace.now bus tuple.now) }
{
    match bus {
        Bus::Memory => append_lines(text, trace, tuple),
        Bus::Blocks
        | Bus::Children
        | Bus::Loops
        | Bus::Groups
        | Bus::Overflow
        | Bus::Hasher
        | Bus::Bitwise
        | Bus::Range
        | Bus::Kernel => Ok(()),
    }
}

fn append_lines(text: &mut Bytes, trace: &Trace, tuple: &[Felt]) -> Result<(), Memory>
    ensures { OnOk result (text.new ≡ text.old ++ lines_beside tuple.now trace.now.memory) }
{
    let mut told = 0;
    for i in 0..trace.memory.rows() {
        let row = trace.memory.row(i);
        if told < MOST_BESIDE && is_beside(tuple, &row) {
            append_beside(text, trace, TableName::Memory, i)?;
            told += 1;
        }
    }
    Ok(())
}

fn is_beside<V: MemoryView>(tuple: &[Felt], row: &V) -> bool
    ensures { result ≡ is_beside tuple.now (V.cells row.now) }
{
    is_at(tuple, row) && access_of(row).as_slice() != tuple
}

// Whether the row has the tuple's context, address and clock.
fn is_at<V: MemoryView>(tuple: &[Felt], row: &V) -> bool
    ensures { result ≡ is_at tuple.now (V.cells row.now) }
{
    match tuple {
        [_, ctx, addr, clk, ..] => { row.ctx() == *ctx && row.addr() == *addr && row.clk() == *clk }
        _ => false,
    }
}

// What the row gives.
fn access_of<V: MemoryView>(row: &V) -> [Felt; 8]
    ensures { result ≡ access_of (V.cells row.now) }
{
    [
        row.kind(),
        row.ctx(),
        row.addr(),
        row.clk(),
        row.v0(),
        row.v1(),
        row.v2(),
        row.v3(),
    ]
}
