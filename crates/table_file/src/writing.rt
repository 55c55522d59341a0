ghost use Rattle.std.specs.Prelude.{◌≡◌, ◌+◌, ◌*◌, ◌<◌, ◌≤◌, ◌++◌, [], true, drop, length, slice_index_or, IfOk};
ghost use Rattle.air_kit.specs.Traces.{HasCounts, lengths_of, rows_of};
ghost use Rattle.table_file.specs.Fields.{row_bytes, table_bytes};
ghost use Rattle.table_file.specs.Files.{bytes_of, count_bytes, head_bytes, this_version};
ghost use Rattle.table_file.specs.Left.{left_of};

use crate::head::{MAGIC, VERSION};
use crate::rows::ELEMENT_BYTES;
use air_kit::{TableName, Trace};
use byteorder::{ByteOrder, LittleEndian};
use std::alloc::Global;
use std::marker::Model;
use vm_field::{Bytes, Memory};
use vm_io::{Piece, Pieces, gather};
use vm_table::{Table, View};

// How many bytes the longest row has, one of the main table.
const MOST_ROW_BYTES: usize = 520;

/// The table file of a trace, whole in memory.
pub fn encode(alloc: Global, trace: &Trace) -> Result<Bytes, Memory>
    requires { HasCounts trace.now }
    ensures { IfOk result (λ bytes. bytes ≡ bytes_of trace.now) }
{
    let mut pieces = TablePieces::new(trace);
    gather(alloc, &mut pieces)
}

/// The table file of a trace, piece by piece. It is seen as the bytes that are still to come.
#[derive(Drop)]
pub struct TablePieces<'a> {
    trace: &'a Trace,
    // whether the head was given
    has_head: bool,
    // the table and the row of it that come next
    table: usize,
    row: usize,
}

impl<'a> Model for TablePieces<'a> {
    ghost use Rattle.std.specs.Prelude.{ℕ, List};
    ghost use Rattle.table_file.specs.Left.{left_of};

    ghost Value = { List ℕ };

    ghost view = { λ a. left_of a.trace.now a.has_head a.table a.row };

    ghost use Rattle.air_kit.specs.Traces.{HasCounts};

    ghost invariant = { λ a. HasCounts a.trace.now };
}

impl<'a> TablePieces<'a> {
    /// The whole file.
    #[tactic(auto, using(crate::proofs::LeftLemmas::all_left))]
    pub fn new(trace: &'a Trace) -> TablePieces<'a>
        requires { HasCounts trace.now }
        ensures { result ≡ bytes_of trace.entry.now }
    {
        TablePieces {
            trace,
            has_head: false,
            table: 0,
            row: 0,
        }
    }
}

impl<'a> Pieces for TablePieces<'a> {
    ghost rest = { λ bytes. bytes };

    /// The head, or rows of one table, as many as there is room for.
    #[tactic(auto, using(crate::proofs::LeftLemmas::head_goes))]
    fn next_piece(&mut self, room: &mut Piece) {
        room.clear();
        if self.has_head {
            add_rows(room, self.trace, &mut self.table, &mut self.row);
        } else {
            add_head(room, self.trace);
            self.has_head = true;
        }
    }
}

#[tactic(auto, unfolding(crate::specs::Files::head_bytes, crate::specs::Fields::parts_bytes))]
fn add_head(room: &mut Piece, trace: &Trace)
    requires counts { HasCounts trace.now }
    requires empty { room.old.items ≡ [] }
    ensures is { room.new.items ≡ head_bytes this_version (lengths_of trace.now) }
    ensures some { length room.new.items ≡ 36 }
{
    add_u32(room, MAGIC);
    add_u32(room, VERSION);
    add_count(room, trace, TableName::Main);
    add_count(room, trace, TableName::Range);
    add_count(room, trace, TableName::Hasher);
    add_count(room, trace, TableName::Bitwise);
    add_count(room, trace, TableName::Memory);
    add_count(room, trace, TableName::Kernel);
    add_count(room, trace, TableName::Left);
}

fn add_count(room: &mut Piece, trace: &Trace, table: TableName)
    requires counts { HasCounts trace.now }
    requires fits { length room.old.items + 4 ≤ 65536 }
    ensures is { room.new.items ≡ room.old.items ++ count_bytes (length (rows_of trace.now table)) }
    ensures long { length room.new.items ≡ length room.old.items + 4 }
{
    add_u32(room, trace.rows(table) as u32);
}

fn add_u32(room: &mut Piece, number: u32)
    requires { length room.old.items + 4 ≤ 65536 }
    ensures is { room.new.items ≡ room.old.items ++ count_bytes number }
    ensures long { length room.new.items ≡ length room.old.items + 4 }
{
    let mut part = [0; 4];
    LittleEndian::write_u32(&mut part, number);
    room.try_extend_from_slice(&part).unwrap();
}

// Adds the next rows of the first table of which some are left.
fn add_rows(room: &mut Piece, trace: &Trace, table: &mut usize, row: &mut usize)
    requires { room.old.items ≡ [] }
    ensures given { left_of trace.now true table.old row.old ≡ room.new.items ++ left_of trace.now true table.new row.new }
    ensures end { room.new.items ≡ [] → left_of trace.now true table.old row.old ≡ [] }
{
    while *table < 7 {
        let name = TableName::EVERY[*table];
        if *row < trace.rows(name) {
            *row = add_table_rows(room, trace, name, *row);
            return;
        }
        *table += 1;
        *row = 0;
    }
}

// Adds rows of one table of a trace, as `add_table` does.
fn add_table_rows(room: &mut Piece, trace: &Trace, table: TableName, first: usize) -> usize
    requires inside { first < length (rows_of trace.now table) }
    requires empty { room.old.items ≡ [] }
    ensures given { table_bytes (drop first (rows_of trace.now table)) ≡ room.new.items ++ table_bytes (drop result (rows_of trace.now table)) }
    ensures some { 0 < length room.new.items }
{
    match table {
        TableName::Main => add_table(room, &trace.main, first),
        TableName::Range => add_table(room, &trace.range, first),
        TableName::Hasher => add_table(room, &trace.hasher, first),
        TableName::Bitwise => add_table(room, &trace.bitwise, first),
        TableName::Memory => add_table(room, &trace.memory, first),
        TableName::Kernel => add_table(room, &trace.kernel, first),
        TableName::Left => add_table(room, &trace.left, first),
    }
}

// Adds the rows from one on, as many as there is room for, and answers which one comes next.
fn add_table<const W: usize>(room: &mut Piece, table: &Table<W>, first: usize) -> usize
    requires narrow { W ≤ 65 }
    requires inside { first < length table.now }
    requires empty { room.old.items ≡ [] }
    ensures given { table_bytes (drop first table.now) ≡ room.new.items ++ table_bytes (drop result table.now) }
    ensures some { 1 ≤ W → 0 < length room.new.items }
{
    let mut next = first;
    while next < table.rows() && room.remaining_capacity() >= MOST_ROW_BYTES {
        add_row(room, table, next);
        next += 1;
    }
    next
}

// A row is written to a part of its own first, since asking for room at each element takes longer.
fn add_row<const W: usize>(room: &mut Piece, table: &Table<W>, i: usize)
    requires narrow { W ≤ 65 }
    requires inside { i < length table.now }
    requires fits { length room.old.items + 520 ≤ 65536 }
    ensures is { room.new.items ≡ room.old.items ++ row_bytes (slice_index_or table.now i []) }
    ensures long { length room.new.items ≡ length room.old.items + 8 * W }
{
    let numbers = numbers_of(table, i);
    let mut part = [0; MOST_ROW_BYTES];
    let row = &mut part[..ELEMENT_BYTES * W];
    LittleEndian::write_u64_into(&numbers, row);
    room.try_extend_from_slice(row).unwrap();
}

// The elements of a row.
fn numbers_of<const W: usize>(table: &Table<W>, i: usize) -> [u64; W]
    requires { i < length table.now }
    ensures { result ≡ slice_index_or table.now i [] }
{
    let _shape = table.rows();
    let row = table.row(i);
    let mut numbers = [0; W];
    for j in 0..W {
        numbers[j] = row.cell(j).value();
    }
    numbers
}
