ghost use Rattle.std.specs.Prelude.{◌≤◌};

use air_kit::{TableName, Trace};
use buses::Bus;
use show_text::{append_accesses_beside, append_row_beside, key_rows, table_by};
use std::alloc::Global;
use std::test::Fail;
use vm_field::{Bytes, Felt, Felts, Memory};
use vm_table::Table;

// Cells of a row, each by its column; the others are 0.
type Cells = &'static [(usize, u32)];

// A join of a loop, which has two turns, and of a span. Columns: 0 the clock, 8 the address, 9 the bits of the operation, 16 the hash
// elements, 30 the stack, 49 the address of the batch, 51 witnesses. Operations: JOIN is 70, LOOP 72, SPAN 73, END 76, REPEAT 77, HALT 79.
static MAIN: [Cells; 15] = [
    &[(10, 1), (11, 1), (15, 1)],
    &[(0, 1), (8, 1), (12, 1), (15, 1), (16, 5), (30, 1), (51, 1)],
    &[(0, 2), (8, 9), (9, 1), (12, 1), (15, 1)],
    &[(0, 3), (8, 17), (49, 17)],
    &[(0, 4), (8, 17), (11, 1), (12, 1), (15, 1), (49, 17)],
    &[(0, 5), (8, 9), (9, 1), (11, 1), (12, 1), (15, 1), (16, 6)],
    &[(0, 6), (8, 9), (9, 1), (12, 1), (15, 1)],
    &[(0, 7), (8, 25), (49, 25)],
    &[(0, 8), (8, 25), (11, 1), (12, 1), (15, 1), (49, 25)],
    &[(0, 9), (8, 9), (11, 1), (12, 1), (15, 1)],
    &[(0, 10), (8, 1), (9, 1), (12, 1), (15, 1)],
    &[(0, 11), (8, 33), (49, 33)],
    &[(0, 12), (8, 33), (11, 1), (12, 1), (15, 1), (49, 33)],
    &[(0, 13), (8, 1), (11, 1), (12, 1), (15, 1)],
    &[(0, 14), (9, 1), (10, 1), (11, 1), (12, 1), (15, 1)],
];

// The first half of a permutation of HPERM. Columns: 0 the mode, 3 the state.
static HASHER: [Cells; 4] = [&[(0, 1)], &[(0, 1)], &[(0, 1)], &[(0, 1), (3, 8)]];

// Three words at the same address and clock, and one at a later clock. Columns: 0 the kind, 2 the address, 3 the clock, 4 the word.
static MEMORY: [Cells; 4] = [
    &[(0, 2), (2, 3), (3, 11), (4, 10)],
    &[(0, 2), (2, 3), (3, 11), (4, 9)],
    &[(0, 1), (2, 3), (3, 11), (4, 9)],
    &[(0, 2), (2, 3), (3, 12), (4, 10)],
];

// A tuple, and the rows that its key says.
struct Said {
    bus: Bus,
    tuple: &'static [u32],
    table: TableName,
    rows: [Option<usize>; 3],
}

// A line of these: the bus, the tuple's elements, and the table and the rows.
macro_rules! said {
    ($($bus:ident [$($element:literal)*] => $table:ident $first:expr, $second:expr, $third:expr;)*) => {
        [$(Said {
            bus: Bus::$bus,
            tuple: &[$($element),*],
            table: TableName::$table,
            rows: [$first, $second, $third],
        }),*]
    };
}

static SAID: [Said; 10] = said! {
    Blocks [25 9 2 0 0 0 0 0 0 0 0 0] => Main Some(6), Some(8), None;
    Children [1 4 4 4 4 1] => Main Some(0), Some(9), Some(12);
    Loops [9 6 0 0 0] => Main Some(1), Some(9), None;
    Groups [33 1 5] => Main Some(10), None, None;
    Overflow [3 8 0] => Main Some(3), None, None;
    Hasher [5 4 0 0 0 0 0 0 0 0 0 0 0 0] => Hasher Some(3), None, None;
    Bitwise [1 5 6 3] => Main None, None, None;
    Memory [2 0 3 11 9 0 0 0] => Main Some(11), None, None;
    Range [7] => Main None, None, None;
    Kernel [1 2 3 4] => Main None, None, None;
};

// REPEAT runs the body 6 and LOOP started the body 5: what neither of these rows of the loop 9 gives.
const LOOP_LINES: &str = "\
beside main row 1 LOOP clk=1 addr=1 b3=1 b6=1 h0=5 s0=1 w0=1
beside main row 9 END clk=9 addr=9 b2=1 b3=1 b6=1
";

const HASHER_LINE: &str = "beside hasher row 3 mode=1 x0=8\n";

// Beside the word 9 of which element 0 is written.
const MEMORY_LINES: &str = "\
beside memory row 0 kind=2 addr=3 clk=11 v0=10
beside memory row 2 kind=1 addr=3 clk=11 v0=9
";

fn fill<const W: usize>(table: &mut Table<W>, rows: &[Cells]) -> Result<(), Memory>
    requires { W ≤ 65 }
{
    for cells in rows {
        let mut row = [Felt::ZERO; W];
        for (column, number) in *cells {
            if *column < W {
                row[*column] = Felt::from_u32(*number);
            }
        }
        table.push_row(&row)?;
    }
    Ok(())
}

fn fill_all(trace: &mut Trace) -> Result<(), Memory> {
    fill(&mut trace.main, &MAIN)?;
    fill(&mut trace.hasher, &HASHER)?;
    fill(&mut trace.memory, &MEMORY)
}

// The trace of these rows. Its tables are filled where they stand: the proof pays for what a function owns at each of its returns.
fn trace(alloc: Global) -> Result<Trace, Memory> {
    let mut trace = Trace {
        main: Table::new(alloc),
        range: Table::new(alloc),
        hasher: Table::new(alloc),
        bitwise: Table::new(alloc),
        memory: Table::new(alloc),
        kernel: Table::new(alloc),
        left: Table::new(alloc),
    };
    fill_all(&mut trace)?;
    Ok(trace)
}

fn elements(alloc: Global, numbers: &[u32]) -> Result<Felts, Memory> {
    let mut list = Felts::new(alloc);
    for number in numbers {
        list.push(Felt::from_u32(*number))?;
    }
    Ok(list)
}

fn is_said(alloc: Global, trace: &Trace, said: &Said) -> Result<bool, Memory> {
    let tuple = elements(alloc, said.tuple)?;
    let rows = key_rows(trace, said.bus, tuple.as_slice());
    Ok(rows == said.rows && table_by(said.bus) == said.table)
}

fn are_said(alloc: Global, trace: &Trace) -> Result<bool, Memory> {
    let mut all = true;
    for said in &SAID {
        all = is_said(alloc, trace, said)? && all;
    }
    Ok(all)
}

fn append_key_rows(
    text: &mut Bytes,
    trace: &Trace,
    bus: Bus,
    tuple: &[Felt],
) -> Result<(), Memory> {
    for row in key_rows(trace, bus, tuple) {
        if let Some(row) = row {
            append_row_beside(text, trace, table_by(bus), row)?;
        }
    }
    Ok(())
}

// What is told beside what a REPEAT asks.
fn beside_a_turn(alloc: Global, trace: &Trace) -> Result<Bytes, Memory> {
    let mut text = Bytes::new(alloc);
    append_key_rows(
        &mut text,
        trace,
        Bus::Loops,
        &[9, 6, 0, 0, 0].map(Felt::from_u32),
    )?;
    Ok(text)
}

// A row that there is, and one that there is not.
fn beside_the_hasher(alloc: Global, trace: &Trace) -> Result<Bytes, Memory> {
    let mut text = Bytes::new(alloc);
    append_row_beside(&mut text, trace, TableName::Hasher, 3)?;
    append_row_beside(&mut text, trace, TableName::Hasher, 4)?;
    Ok(text)
}

fn beside_an_access(alloc: Global, trace: &Trace) -> Result<Bytes, Memory> {
    let mut text = Bytes::new(alloc);
    append_accesses_beside(
        &mut text,
        trace,
        Bus::Memory,
        &[2, 0, 3, 11, 9, 0, 0, 0].map(Felt::from_u32),
    )?;
    Ok(text)
}

#[test]
fn keys_say_rows(rt: HostRuntime) -> Result<(), Fail> {
    let trace = trace(rt.alloc())?;
    assert!(rt; are_said(rt.alloc(), &trace)?);
    Ok(())
}

#[test]
fn loops_stand_beside_a_turn(rt: HostRuntime) -> Result<(), Fail> {
    let trace = trace(rt.alloc())?;
    let text = beside_a_turn(rt.alloc(), &trace)?;
    assert_eq!(rt; text.as_slice(), LOOP_LINES.as_bytes());
    Ok(())
}

#[test]
fn rows_stand_beside_a_tuple(rt: HostRuntime) -> Result<(), Fail> {
    let trace = trace(rt.alloc())?;
    let text = beside_the_hasher(rt.alloc(), &trace)?;
    assert_eq!(rt; text.as_slice(), HASHER_LINE.as_bytes());
    Ok(())
}

#[test]
fn accesses_stand_beside_a_tuple(rt: HostRuntime) -> Result<(), Fail> {
    let trace = trace(rt.alloc())?;
    let text = beside_an_access(rt.alloc(), &trace)?;
    assert_eq!(rt; text.as_slice(), MEMORY_LINES.as_bytes());
    Ok(())
}
