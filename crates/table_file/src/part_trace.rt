ghost use Rattle.std.specs.Prelude.{◌≡◌, ◌+◌, ◌*◌, ◌^◌, ◌<◌, ◌≤◌, ℕ, List, drop, length, Err, IfOk, IfErr};
ghost use Rattle.air_kit.specs.Tables.{columns, every_table};
ghost use Rattle.air_kit.specs.Traces.{rows_of};
ghost use Rattle.table_file.specs.Fields.{GivesRead, rows_at};
ghost use Rattle.table_file.specs.Files.{AreFew, no_rows, tables_from, with_rows};
ghost use Rattle.table_file.specs.Reading.{Advances, IsReady, PlacesAreSmall, ReadsRows, StandsAt, next_row, rest_of};

use crate::cause::{FileCause, FileError, bad};
use crate::head::HEAD_BYTES;
use crate::rows::{cut_row, take_rows};
use air_kit::{TableName, Trace};
use std::alloc::Global;
use vm_table::Table;

// How many bytes a row of each table has, eight for each of its columns.
const ROW_SIZES: [usize; 7] = [520, 16, 120, 96, 112, 40, 8];

/// A trace of which some rows are read.
#[derive(Drop)]
pub(crate) struct PartTrace {
    // the rows that are read
    trace: Trace,
    // how many rows of each table are still to come
    left: [usize; 7],
    // the first table of which some are, as its place in the order of the tables
    table: usize,
    // where they begin in the file
    at: usize,
}

impl PartTrace {
    /// No row is read yet.
    pub(crate) fn new(alloc: Global, counts: [usize; 7]) -> PartTrace
        requires { AreFew counts }
        ensures place { result.at ≡ 36 }
        ensures ready { IsReady result }
        ensures begins { (all : List ℕ) → tables_from all every_table counts 36 no_rows ≡ rest_of all result }
    {
        let mut part = PartTrace {
            trace: Trace {
                main: Table::new(alloc),
                range: Table::new(alloc),
                hasher: Table::new(alloc),
                bitwise: Table::new(alloc),
                memory: Table::new(alloc),
                kernel: Table::new(alloc),
                left: Table::new(alloc),
            },
            left: counts,
            table: 0,
            at: HEAD_BYTES,
        };
        part.pass_ended();
        part
    }

    // Goes past tables of which no row is still to come.
    fn pass_ended(&mut self)
        requires { PlacesAreSmall self.old }
        ensures place { self.new.at ≡ self.old.at }
        ensures ready { IsReady self.new }
        ensures same { (all : List ℕ) → rest_of all self.old ≡ rest_of all self.new }
    {
        while self.table < 7 && self.left[self.table] == 0 {
            self.table += 1;
        }
    }

    /// How many bytes the next row has. Behind the last row one is wanted, which may not come.
    pub(crate) fn next_row(&self) -> usize
        ensures { result ≡ next_row self.now }
    {
        ROW_SIZES.get(self.table).copied().unwrap_or(1)
    }

    /// Reads rows of the first table of which some are still to come, as many as stand whole in the bytes, and answers how many
    /// bytes they have.
    pub(crate) fn take_rows(&mut self, bytes: &[u8]) -> Result<usize, FileError>
        requires ready { IsReady self.old }
        requires enough { next_row self.old ≤ length bytes.now }
        ensures ok { IfOk result (λ count. Advances self.old self.new bytes.now count) }
        ensures err { IfErr result (λ error. (all : List ℕ) → StandsAt all self.old.at bytes.now
            → GivesRead (Err error) (rest_of all self.old)) }
    {
        let i = self.table;
        if 7 <= i {
            return Err(bad(self.at, FileCause::Extra));
        }
        let mut left = self.left[i];
        let count = take_table_rows(
            &mut self.trace,
            TableName::EVERY[i],
            &mut left,
            bytes,
            self.at,
        )?;
        self.left[i] = left;
        self.at += count;
        self.pass_ended();
        Ok(count)
    }

    /// The trace of a file that ends behind these bytes, which are fewer than a row has.
    pub(crate) fn finish(self, rest: &[u8]) -> Result<Trace, FileError>
        requires ready { IsReady self }
        requires short { length rest.now < next_row self }
        ensures { (all : List ℕ) → drop self.at all ≡ rest.now → GivesRead result (rest_of all self) }
    {
        if self.table < 7 {
            Err(cut_row(rest, self.at))
        } else {
            Ok(self.trace)
        }
    }
}

// Reads rows of one table of a trace, as `take_rows` does.
fn take_table_rows(
    trace: &mut Trace,
    table: TableName,
    left: &mut usize,
    bytes: &[u8],
    at: usize,
) -> Result<usize, FileError>
    requires some { 0 < left.old }
    requires small { at + 520 * left.old ≤ 2 ^ 35 }
    requires enough { 8 * columns table ≤ length bytes.now }
    ensures ok { IfOk result (λ count. ReadsRows (columns table) at bytes.now left.old left.new (rows_of trace.old table) (rows_of trace.new table) count) }
    ensures some { IfOk result (λ count. 8 * columns table ≤ count) }
    ensures same { trace.new ≡ with_rows table (rows_of trace.new table) trace.old }
    ensures err { IfErr result (λ error. (all : List ℕ) → StandsAt all at bytes.now
        → GivesRead (Err error) (rows_at all (columns table) left.old at)) }
{
    match table {
        TableName::Main => take_rows(&mut trace.main, left, bytes, at),
        TableName::Range => take_rows(&mut trace.range, left, bytes, at),
        TableName::Hasher => take_rows(&mut trace.hasher, left, bytes, at),
        TableName::Bitwise => take_rows(&mut trace.bitwise, left, bytes, at),
        TableName::Memory => take_rows(&mut trace.memory, left, bytes, at),
        TableName::Kernel => take_rows(&mut trace.kernel, left, bytes, at),
        TableName::Left => take_rows(&mut trace.left, left, bytes, at),
    }
}
