ghost use Rattle.std.specs.List.{IsDistinct};
ghost use Rattle.std.specs.Prelude.{◌≡◌, ◌≤◌, ◌%◌, length, nat_eq, IfOk};
ghost use Rattle.vm_field.specs.Field.{prime};
ghost use lib.Pointwise.{pointwise};

use air_kit::{Public, TableName, Trace};
use rpo_hash::Params;
use std::alloc::Global;
use vm_field::{Felt, Felts, Memory, Word, Words};
use vm_state::{Inputs, Statement};
use vm_table::Table;

// Constants that are all 0.
const NO_CONSTANTS: Params = Params {
    first: [[Felt::ZERO; 12]; 7],
    second: [[Felt::ZERO; 12]; 7],
};

/// A cell that is not 0: its row, its column and its value.
pub type Cell = (usize, usize, u64);

/// A run of a program of one span: its tables and its statement, under constants that are all 0.
#[derive(Clone, Copy)]
pub struct Run {
    /// The main table's cells, and how many rows it has.
    pub main: &'static [Cell],
    pub rows: usize,
    /// The value below 2^16 that is asked, once, if there is one, and how many rows the range table has.
    pub asked: Option<u32>,
    pub range_rows: usize,
    /// The hasher's.
    pub hasher: &'static [Cell],
    pub hasher_rows: usize,
    /// How many rows the table of bitwise operations has, all of zeros, and how many memory has.
    pub bitwise_rows: usize,
    pub memory_rows: usize,
    pub left: &'static [u64],
    pub digest: [u64; 4],
    pub inputs: &'static [u64],
    pub outputs: &'static [u64],
}

// Reads of a word that nothing was written to, in cycles 0 and 1.
static READS: [Cell; 2] = [(0, 8, 1), (1, 3, 1)];

// The steps between the values of the range table.
static STEPS: [u32; 8] = [2187, 729, 243, 81, 27, 9, 3, 1];

/// What a case changes: a cell of a table.
pub struct Change {
    pub table: TableName,
    pub cell: Cell,
}

fn element(value: u64) -> Felt
    ensures { result ≡ value % prime }
{
    Felt::reduced(u128::from(value))
}

fn elements(alloc: Global, values: &[u64]) -> Result<Felts, Memory> {
    let mut list = Felts::new(alloc);
    for value in values {
        list.push(element(*value))?;
    }
    Ok(list)
}

fn write<const W: usize>(cells: &mut [Felt; W], row: usize, cell: &Cell) {
    if cell.0 == row && cell.1 < W {
        cells[cell.1] = element(cell.2);
    }
}

// Adds a row, but for its cells that are changed.
fn push_row<const W: usize>(
    table: &mut Table<W>,
    name: TableName,
    cells: &mut [Felt; W],
    changes: &[Change],
) -> Result<(), Memory> {
    let row = table.rows();
    for change in changes {
        if change.table == name {
            write(cells, row, &change.cell);
        }
    }
    table.push_row(cells)
}

// Adds the rows of these cells, but for those that are changed.
fn fill<const W: usize>(
    table: &mut Table<W>,
    name: TableName,
    rows: usize,
    cells: &[Cell],
    changes: &[Change],
) -> Result<(), Memory>
    requires { W ≤ 65 }
{
    for row in 0..rows {
        let mut written = [Felt::ZERO; W];
        for cell in cells {
            write(&mut written, row, cell);
        }
        push_row(table, name, &mut written, changes)?;
    }
    Ok(())
}

// The value behind this one: by the greatest step that passes neither the value that is asked nor 65535.
fn next_value(value: u32, asked: Option<u32>) -> u32 {
    let end = match asked {
        Some(asked) if value < asked => asked,
        _ => 65535,
    };
    let rest = end.saturating_sub(value);
    for step in &STEPS {
        if *step <= rest {
            return value.saturating_add(*step);
        }
    }
    value
}

// Adds the values from 0 to 65535, each with how often it is asked.
fn fill_range(table: &mut Table<2>, run: &Run, changes: &[Change]) -> Result<(), Memory> {
    let mut value = 0u32;
    for _ in 0..run.range_rows {
        let count = u32::from(run.asked == Some(value));
        let mut written = [Felt::from_u32(count), Felt::from_u32(value)];
        push_row(table, TableName::Range, &mut written, changes)?;
        value = next_value(value, run.asked);
    }
    Ok(())
}

fn fill_left(table: &mut Table<1>, keys: &[u64], changes: &[Change]) -> Result<(), Memory> {
    for key in keys {
        push_row(table, TableName::Left, &mut [element(*key)], changes)?;
    }
    Ok(())
}

// Whether a change is one of a cell that the trace has.
fn is_within(trace: &Trace, change: &Change) -> bool {
    let (row, column, _) = change.cell;
    match change.table {
        TableName::Main => row < trace.main.rows() && column < 65,
        TableName::Range => row < trace.range.rows() && column < 2,
        TableName::Hasher => row < trace.hasher.rows() && column < 15,
        TableName::Bitwise => row < trace.bitwise.rows() && column < 12,
        TableName::Memory => row < trace.memory.rows() && column < 14,
        TableName::Kernel => row < trace.kernel.rows() && column < 5,
        TableName::Left => row < trace.left.rows() && column < 1,
    }
}

/// Whether each change is one of a cell that the trace has.
pub fn are_within(trace: &Trace, changes: &[Change]) -> bool {
    let mut all = true;
    for change in changes {
        all = all && is_within(trace, change);
    }
    all
}

// Fills the tables of a trace, and gives the kernel's a row where there is a kernel.
fn fill_all(
    trace: &mut Trace,
    run: &Run,
    has_kernel: bool,
    changes: &[Change],
) -> Result<(), Memory> {
    let kernel_rows = usize::from(has_kernel);
    fill(
        &mut trace.main,
        TableName::Main,
        run.rows,
        run.main,
        changes,
    )?;
    fill_range(&mut trace.range, run, changes)?;
    fill(
        &mut trace.hasher,
        TableName::Hasher,
        run.hasher_rows,
        run.hasher,
        changes,
    )?;
    fill(
        &mut trace.bitwise,
        TableName::Bitwise,
        run.bitwise_rows,
        &[],
        changes,
    )?;
    fill(
        &mut trace.memory,
        TableName::Memory,
        run.memory_rows,
        &READS,
        changes,
    )?;
    fill(
        &mut trace.kernel,
        TableName::Kernel,
        kernel_rows,
        &[],
        changes,
    )?;
    fill_left(&mut trace.left, run.left, changes)
}

/// The trace of a run with some cells changed. Its tables are filled where they stand: the proof pays for what a function owns
/// at each of its returns.
pub fn trace(
    alloc: Global,
    run: &Run,
    has_kernel: bool,
    changes: &[Change],
) -> Result<Trace, Memory> {
    let mut trace = Trace {
        main: Table::new(alloc),
        range: Table::new(alloc),
        hasher: Table::new(alloc),
        bitwise: Table::new(alloc),
        memory: Table::new(alloc),
        kernel: Table::new(alloc),
        left: Table::new(alloc),
    };
    fill_all(&mut trace, run, has_kernel, changes)?;
    Ok(trace)
}

// A word of zeros as the kernel, or none.
fn kernel_of(alloc: Global, has_kernel: bool) -> Result<Words, Memory>
    ensures few { IfOk result (λ kernel. length kernel ≤ 255) }
    ensures distinct { IfOk result (IsDistinct (pointwise nat_eq)) }
{
    if has_kernel {
        Words::copied(alloc, &[Word::ZERO])
    } else {
        Ok(Words::new(alloc))
    }
}

/// The constants and the statement of a run, with a word of zeros as its kernel or with none.
pub fn public(alloc: Global, run: &Run, has_kernel: bool) -> Result<Public, Memory> {
    let kernel = kernel_of(alloc, has_kernel)?;
    let [d0, d1, d2, d3] = run.digest;
    let digest = Word([element(d0), element(d1), element(d2), element(d3)]);
    let inputs = elements(alloc, run.inputs)?;
    let outputs = elements(alloc, run.outputs)?;
    if Inputs::MOST_STACK < inputs.len()
        || outputs.len() < Statement::LEAST_OUTPUTS
        || Statement::MOST_OUTPUTS < outputs.len()
    {
        return Err(Memory::Memory);
    }
    Ok(Public {
        params: NO_CONSTANTS,
        statement: Statement::new(digest, kernel, inputs, outputs),
    })
}
