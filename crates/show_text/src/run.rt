//! The tables of a trace and the operations of its run.
ghost use Rattle.std.specs.Prelude.{◌≡◌, ◌<◌, ◌^◌, ◌++◌, OnOk, IfOk};
ghost use Rattle.std.specs.List.{flat_map};
ghost use Rattle.vm_table.specs.MainColumns.{b};
ghost use Rattle.air_kit.specs.Flags.{spelled};
ghost use Rattle.air_kit.specs.Tables.{every_table};
ghost use Rattle.show_text.specs.RunText.{name_or_number, op_spelled as op_by, run_line, table_line, trace_text};

use air_kit::{TableName, Trace, code_in, has_bits, table_text};
use decimal_text::{append_element, append_number};
use std::alloc::Global;
use vm_field::{Bytes, Felt, Memory};
use vm_ops::{Op, from_opcode};
use vm_table::{MainView, Table};

/// How many rows each table has, and a line for each row of the main table: its clock, its operation, the depth and the four top
/// cells of its stack, and the address of its block.
///
/// # Errors
///
/// `Memory` where the system gave none for the text.
pub fn run_text(alloc: Global, trace: &Trace) -> Result<Bytes, Memory>
    ensures { IfOk result (λ text. text ≡ trace_text trace.now) }
{
    let mut text = Bytes::new(alloc);
    append_tables(&mut text, trace)?;
    append_run(&mut text, &trace.main)?;
    Ok(text)
}

fn append_tables(text: &mut Bytes, trace: &Trace) -> Result<(), Memory>
    ensures { OnOk result (text.new ≡ text.old ++ flat_map (table_line trace.now) every_table) }
{
    for table in TableName::EVERY {
        append_table(text, trace, table)?;
    }
    Ok(())
}

fn append_table(text: &mut Bytes, trace: &Trace, table: TableName) -> Result<(), Memory>
    ensures { OnOk result (text.new ≡ text.old ++ table_line trace.now table) }
{
    text.append(table_text(table).as_bytes())?;
    text.append(b" rows ")?;
    append_number(text, trace.rows(table) as u64)?;
    text.append(b"\n")
}

fn append_run(text: &mut Bytes, main: &Table<65>) -> Result<(), Memory>
    ensures { OnOk result (text.new ≡ text.old ++ flat_map run_line main.now) }
{
    for i in 0..main.rows() {
        append_row(text, &main.row(i))?;
    }
    Ok(())
}

fn append_row<V: MainView>(text: &mut Bytes, row: &V) -> Result<(), Memory>
    ensures { OnOk result (text.new ≡ text.old ++ run_line (V.cells row.now)) }
{
    text.append(b"clk ")?;
    append_number(text, row.clk().value())?;
    text.append(b" ")?;
    append_operation(text, row)?;
    text.append(b" depth")?;
    append_element(text, row.depth())?;
    text.append(b" stack")?;
    append_element(text, row.s0())?;
    append_element(text, row.s1())?;
    append_element(text, row.s2())?;
    append_element(text, row.s3())?;
    text.append(b" addr")?;
    append_element(text, row.addr())?;
    text.append(b"\n")
}

/// Adds the operation's name, or the number that the row spells where it is none's.
///
/// # Errors
///
/// `Memory` where the system gave none for the longer text.
pub(crate) fn append_operation<V: MainView>(text: &mut Bytes, row: &V) -> Result<(), Memory>
    ensures { OnOk result (text.new ≡ text.old ++ name_or_number (op_by (V.cells row.now)) (spelled 7 (b (V.cells row.now)))) }
{
    match op_spelled(row) {
        Some(op) => text.append(vm_ops::text(op).as_bytes()),
        None => {
            text.append(b"?")?;
            let mut buffer = itoa::Buffer::new();
            text.append(buffer.format(number_spelled(row)).as_bytes())
        }
    }
}

/// The operation that a row spells.
pub(crate) fn op_spelled<V: MainView>(row: &V) -> Option<Op>
    ensures { result ≡ op_by (V.cells row.now) }
{
    if has_bits(row) {
        from_opcode(code_in(row))
    } else {
        None
    }
}

// The seven columns as digits, lowest first, whatever they hold.
fn number_spelled<V: MainView>(row: &V) -> u128
    ensures { result ≡ spelled 7 (b (V.cells row.now)) }
{
    let b0 = digit(row.b0());
    let b1 = digit(row.b1());
    let b2 = digit(row.b2());
    let b3 = digit(row.b3());
    let b4 = digit(row.b4());
    let b5 = digit(row.b5());
    let b6 = digit(row.b6());
    b0 + 2 * b1 + 4 * b2 + 8 * b3 + 16 * b4 + 32 * b5 + 64 * b6
}

fn digit(element: Felt) -> u128
    ensures is { result ≡ element }
    ensures below { result < 2 ^ 64 }
{
    u128::from(element.value())
}
