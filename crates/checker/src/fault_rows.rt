//! The rows of a trace with an entry that is not 0, each told by its first such entry.
ghost use Rattle.std.specs.Prelude.{◌≡◌, ◌+◌, ◌*◌, ◌^◌, ◌<◌, ◌≤◌, length, take, slice_get, IfOk, OnOk};
ghost use Rattle.std.specs.Option.{option_to_list};
ghost use Rattle.air_kit.specs.Acceptance.{IsRowsAnswer};
ghost use Rattle.air_kit.specs.Traces.{HasCounts, claim_of, rows_of};
ghost use Rattle.checker.specs.FaultRows.{EachIsOfRow, EachRowIsThere, FirstIsFirst, NoneWhereZero, RowsFollow};
ghost use Rattle.checker.specs.FaultRows.{fault_of_row, faults_of, kept_with, table_faults};
ghost use Rattle.checker.specs.Settings.{claim_in};

use crate::numbering::rows_in;
use crate::rows::row_fault;
use crate::setting::Setting;
use air_kit::{Fault, Public, TableName, Trace};
use std::alloc::Global;
use vm_field::Memory;

/// The rows of a trace with an entry that is not 0.
#[derive(Drop)]
pub struct FaultRows {
    /// The first such entry of each of them, in the order of the tables and of their rows: no more than were asked for.
    pub told: Vec<Fault>,
    /// How many rows there are, told or not.
    pub rows: usize,
}

/// The rows of a trace with an entry that is not 0: how many they are, and of the first ones, of at most `most`, the first such entry. The
/// first of all is the trace's first fault. All rows are tested, one after another.
///
/// # Errors
///
/// `Memory` where the system gave none for what is told.
pub fn faults_by_row(
    alloc: Global,
    trace: &Trace,
    public: &Public,
    most: usize,
) -> Result<FaultRows, Memory>
    requires counts { HasCounts trace.now }
    ensures told { IfOk result (λ f. f.told.items ≡ take most (faults_of (claim_of public.now trace.now) trace.now)) }
    ensures rows { IfOk result (λ f. f.rows ≡ length (faults_of (claim_of public.now trace.now) trace.now)) }
    ensures first { 0 < most → IfOk result (λ f. IsRowsAnswer (claim_of public.now trace.now) trace.now (slice_get f.told.items 0)) }
{
    let setting = Setting::of(trace, public);
    let mut faults = FaultRows {
        told: Vec::new(alloc),
        rows: 0,
    };
    for name in TableName::EVERY {
        add_table(trace, &setting, name, most, &mut faults)?;
    }
    Ok(faults)
}

// Counts the rows of a table that have a fault, and keeps the first ones.
fn add_table(
    trace: &Trace,
    setting: &Setting<'_>,
    name: TableName,
    most: usize,
    faults: &mut FaultRows,
) -> Result<(), Memory>
    requires counts { HasCounts trace.now }
    requires room { faults.old.rows ≤ 2 ^ 30 }
    ensures told { OnOk result (faults.new.told.items
        ≡ kept_with most faults.old.told.items (table_faults (claim_in setting.now) trace.now name)) }
    ensures rows { OnOk result (faults.new.rows ≡ faults.old.rows + length (table_faults (claim_in setting.now) trace.now name)) }
    ensures few { OnOk result (faults.new.rows ≤ faults.old.rows + 2 ^ 22) }
{
    for row in 0..rows_in(trace, name) {
        add_row(trace, setting, name, row, most, faults)?;
    }
    Ok(())
}

// Counts a row that has a fault, and keeps it where fewer than so many are kept.
fn add_row(
    trace: &Trace,
    setting: &Setting<'_>,
    name: TableName,
    row: usize,
    most: usize,
    faults: &mut FaultRows,
) -> Result<(), Memory>
    requires counts { HasCounts trace.now }
    requires within { row < length (rows_of trace.now name) }
    requires small { row < 2 ^ 32 }
    requires room { faults.old.rows < 2 ^ 32 }
    ensures told { OnOk result (faults.new.told.items
        ≡ kept_with most faults.old.told.items (option_to_list (fault_of_row (claim_in setting.now) trace.now name row))) }
    ensures rows { OnOk result (faults.new.rows
        ≡ faults.old.rows + length (option_to_list (fault_of_row (claim_in setting.now) trace.now name row))) }
{
    let Some((number, value)) = row_fault(trace, setting, name, row) else {
        return Ok(());
    };
    faults.rows += 1;
    if faults.told.len() < most {
        faults.told.push(Fault {
            table: name,
            row: row as u32,
            number,
            value,
        })?;
    }
    Ok(())
}

/// The laws of these rows: there is none exactly where each entry is 0; the first one's fault is the trace's first; what is told of them are
/// the first entries of rows that are not 0, and no other; each row with such an entry is among them; and those of rows one behind another
/// are one list.
pub fn fault_row_laws()
    ensures none { NoneWhereZero }
    ensures first { FirstIsFirst }
    ensures members { EachIsOfRow }
    ensures rows { EachRowIsThere }
    ensures follow { RowsFollow }
{}
