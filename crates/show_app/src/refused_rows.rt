//! Which rows of a trace are refused beside the first one, and how many there are.
ghost use Rattle.std.specs.Prelude.{◌≡◌, ◌++◌, drop, OnOk};
ghost use Rattle.std.specs.List.{flat_map};
ghost use Rattle.air_kit.specs.Traces.{HasCounts, claim_of};
ghost use Rattle.checker.specs.FaultRows.{faults_of};
ghost use Rattle.show_app.specs.RefusedRows.{also_line, entry_text, refused_rows, rows_refused_line};

use air_kit::{Fault, Public, Trace, table_text};
use checker::faults_by_row;
use decimal_text::append_number;
use std::alloc::Global;
use vm_field::{Bytes, Felt, Memory};

// How many refused rows are told, the first one among them.
const MOST_TOLD: usize = 16;

/// Adds the refused rows behind the first one, as far as they are told, and how many refused rows there are. It tests all rows once more.
pub fn append_refused_rows(
    text: &mut Bytes,
    alloc: Global,
    trace: &Trace,
    public: &Public,
) -> Result<(), Memory>
    requires { HasCounts trace.now }
    ensures { OnOk result (text.new ≡ text.old ++ refused_rows (faults_of (claim_of public.now trace.now) trace.now)) }
{
    let refused = faults_by_row(alloc, trace, public, MOST_TOLD)?;
    append_others(text, refused.told.as_slice())?;
    append_rows_refused(text, refused.rows)
}

// The rows behind the first one.
fn append_others(text: &mut Bytes, told: &[Fault]) -> Result<(), Memory>
    ensures { OnOk result (text.new ≡ text.old ++ flat_map also_line (drop 1 told.now)) }
{
    match told {
        [] => Ok(()),
        [_, others @ ..] => append_each(text, others),
    }
}

fn append_each(text: &mut Bytes, others: &[Fault]) -> Result<(), Memory>
    ensures { OnOk result (text.new ≡ text.old ++ flat_map also_line others.now) }
{
    for fault in others {
        append_other(text, fault)?;
    }
    Ok(())
}

fn append_other(text: &mut Bytes, fault: &Fault) -> Result<(), Memory>
    ensures { OnOk result (text.new ≡ text.old ++ also_line fault.now) }
{
    text.append(b"also ")?;
    text.append(table_text(fault.table).as_bytes())?;
    text.append(b" row ")?;
    append_number(text, u64::from(fault.row))?;
    append_entry(text, fault.number, fault.value)
}

// The number of an entry, and its value.
fn append_entry(text: &mut Bytes, number: u16, value: Felt) -> Result<(), Memory>
    ensures { OnOk result (text.new ≡ text.old ++ entry_text number value) }
{
    text.append(b" constraint ")?;
    append_number(text, u64::from(number))?;
    text.append(b" value ")?;
    append_number(text, value.value())?;
    text.append(b"\n")
}

fn append_rows_refused(text: &mut Bytes, rows: usize) -> Result<(), Memory>
    ensures { OnOk result (text.new ≡ text.old ++ rows_refused_line rows) }
{
    text.append(b"rows refused ")?;
    append_number(text, rows as u64)?;
    text.append(b"\n")
}
