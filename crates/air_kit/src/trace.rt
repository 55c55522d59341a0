ghost use Rattle.std.specs.Prelude.{◌≡◌, length};
ghost use Rattle.air_kit.specs.Tables.{table_number, text_of_table};
ghost use Rattle.air_kit.specs.Traces.{rows_of};

use crate::fault::Fault;
use crate::place::Place;
use crate::requests::{Perm, Requests};
use rpo_hash::Params;
use std::fmt;
use vm_state::Statement;
use vm_table::{Row, Table};

/// The tables that show a run (docs/FORMATS.md).
#[derive(Drop)]
pub struct Trace {
    pub main: Table<65>,
    pub range: Table<2>,
    pub hasher: Table<15>,
    pub bitwise: Table<12>,
    pub memory: Table<14>,
    pub kernel: Table<5>,
    pub left: Table<1>,
}

impl Trace {
    /// How many rows a table has.
    pub fn rows(&self, table: TableName) -> usize
        ensures { result ≡ length (rows_of self.now table) }
    {
        match table {
            TableName::Main => self.main.rows(),
            TableName::Range => self.range.rows(),
            TableName::Hasher => self.hasher.rows(),
            TableName::Bitwise => self.bitwise.rows(),
            TableName::Memory => self.memory.rows(),
            TableName::Kernel => self.kernel.rows(),
            TableName::Left => self.left.rows(),
        }
    }
}

/// A table of a trace.
#[derive(Clone, Copy, Debug, PartialEq, Eq)]
pub enum TableName {
    /// A row for each cycle.
    Main,
    /// Numbers of 16 bits.
    Range,
    /// Permutations, eight rows each.
    Hasher,
    /// Bitwise operations, eight rows each.
    Bitwise,
    /// Accesses of memory.
    Memory,
    /// The kernel's digests.
    Kernel,
    /// Cells below the sixteenth at the end.
    Left,
}

impl TableName {
    /// All tables, in their order.
    pub const EVERY: [TableName; 7] = [
        TableName::Main,
        TableName::Range,
        TableName::Hasher,
        TableName::Bitwise,
        TableName::Memory,
        TableName::Kernel,
        TableName::Left,
    ];

    /// The table's place in their order, from 0 on.
    pub fn number(self) -> usize
        ensures is { result ≡ table_number self }
    {
        match self {
            TableName::Main => 0,
            TableName::Range => 1,
            TableName::Hasher => 2,
            TableName::Bitwise => 3,
            TableName::Memory => 4,
            TableName::Kernel => 5,
            TableName::Left => 6,
        }
    }
}

/// The table's name, as it is printed.
pub fn table_text(table: TableName) -> &'static str
    ensures { result.now ≡ text_of_table table }
{
    match table {
        TableName::Main => "main",
        TableName::Range => "range",
        TableName::Hasher => "hasher",
        TableName::Bitwise => "bitwise",
        TableName::Memory => "memory",
        TableName::Kernel => "kernel",
        TableName::Left => "left",
    }
}

impl fmt::Display for TableName {
    ghost use Rattle.std.specs.Prelude.{Some};
    ghost use Rattle.air_kit.specs.Tables.{text_of_table};

    ghost output = { λ table. Some (text_of_table table) };

    fn fmt<W: fmt::Write>(&self, f: &mut fmt::Formatter<W>) -> fmt::Result {
        let name = table_text(*self);
        write!(f, "{name}")
    }
}

/// What a trace is checked against: the permutation's constants and the statement.
#[derive(Drop)]
pub struct Public {
    pub params: Params,
    pub statement: Statement,
}

fn crosses<T: Send + Sync>() {}

/// Traces, what they are checked against, rows in their places and faults may be sent to other threads and read by several.
pub fn types_cross() {
    crosses::<Trace>();
    crosses::<TableName>();
    crosses::<Public>();
    crosses::<Fault>();
    crosses::<Perm>();
    crosses::<Requests>();
    crosses::<Place<'static, Row<'static, 65>>>();
}
