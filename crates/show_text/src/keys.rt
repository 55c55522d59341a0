//! The rows that the key of a tuple says: those that ask or give a tuple of this key in a true run.
ghost use Rattle.std.specs.Prelude.{◌≡◌, ◌<◌, ◌==◌, if◌then◌else◌, [], drop, length, slice_index, slice_index_or, Some, None};
ghost use Rattle.show_text.specs.KeyRows.{block_rows, child_rows, first_with, hasher_row, in_front, key_place, key_rows, last_with, next_with, or_before, other_than, rows_by, table_by};

use air_kit::{TableName, Trace};
use buses::Bus;
use vm_field::Felt;
use vm_table::{Table, View, column};

const NO_ROWS: [Option<usize>; 3] = [None, None, None];

/// The numbers of the rows that ask or give a tuple of this key in a true run, in their order and none twice: of a block or a loop its start
/// and its END; of a child the start of its parent, and the ENDs of the parent's first and last child; of a group the SPAN or RESPAN of its
/// batch; of a cell below the sixteenth and of an access of memory the row of that clock; of a permutation the hasher's row.
pub fn key_rows(trace: &Trace, bus: Bus, tuple: &[Felt]) -> [Option<usize>; 3]
    ensures { result ≡ key_rows trace.now bus tuple.now }
{
    match tuple.get(key_place(bus)) {
        Some(key) => rows_by(trace, bus, *key),
        None => NO_ROWS,
    }
}

/// The table of these rows.
pub fn table_by(bus: Bus) -> TableName
    ensures { result ≡ table_by bus }
{
    match bus {
        Bus::Hasher => TableName::Hasher,
        Bus::Blocks
        | Bus::Children
        | Bus::Loops
        | Bus::Groups
        | Bus::Overflow
        | Bus::Bitwise
        | Bus::Memory
        | Bus::Range
        | Bus::Kernel => TableName::Main,
    }
}

// The element that is the key.
fn key_place(bus: Bus) -> usize
    ensures { result ≡ key_place bus }
{
    match bus {
        Bus::Hasher => 1,
        Bus::Memory => 3,
        Bus::Blocks
        | Bus::Children
        | Bus::Loops
        | Bus::Groups
        | Bus::Overflow
        | Bus::Bitwise
        | Bus::Range
        | Bus::Kernel => 0,
    }
}

fn rows_by(trace: &Trace, bus: Bus, key: Felt) -> [Option<usize>; 3]
    ensures { result ≡ rows_by trace.now bus key }
{
    match bus {
        Bus::Blocks | Bus::Loops => block_rows(&trace.main, key),
        Bus::Children => child_rows(&trace.main, key),
        Bus::Groups => [
            in_front(first_with(&trace.main, column::HA, key, 0)),
            None,
            None,
        ],
        Bus::Overflow | Bus::Memory => {
            [first_with(&trace.main, column::CLK, key, 0), None, None]
        }
        Bus::Hasher => [hasher_row(&trace.hasher, key), None, None],
        Bus::Bitwise | Bus::Range | Bus::Kernel => NO_ROWS,
    }
}

// The start of the block, and its END.
fn block_rows(main: &Table<65>, block: Felt) -> [Option<usize>; 3]
    ensures { result ≡ block_rows block main.now }
{
    let first = first_with(main, column::ADDR, block, 0);
    let last = last_with(main, column::ADDR, block);
    [in_front(first), last, None]
}

// The parent's start, and the ENDs of its first and of its last child: behind each stands a row in the parent itself.
fn child_rows(main: &Table<65>, parent: Felt) -> [Option<usize>; 3]
    ensures { result ≡ child_rows parent main.now }
{
    let first = first_with(main, column::ADDR, parent, 0);
    let second = next_with(main, column::ADDR, parent, first);
    let last = last_with(main, column::ADDR, parent);
    [
        in_front(first),
        in_front(second),
        in_front(other_than(second, last)),
    ]
}

// The hasher's rows have the addresses from 1 on.
fn hasher_row(hasher: &Table<15>, address: Felt) -> Option<usize>
    ensures { result ≡ hasher_row address hasher.now }
{
    if address.value() <= hasher.rows() as u64 {
        in_front(Some(address.value() as usize))
    } else {
        None
    }
}

// The first row from a number on that has this in a column.
fn first_with(main: &Table<65>, column: usize, value: Felt, from: usize) -> Option<usize>
    requires { column < 65 }
    ensures { result ≡ first_with (λ row. slice_index row column) value from (drop from main.now) }
{
    for i in from..main.rows() {
        if has_at(main, i, column, value) {
            return Some(i);
        }
    }
    None
}

// The one behind the first.
fn next_with(main: &Table<65>, column: usize, value: Felt, first: Option<usize>) -> Option<usize>
    requires { column < 65 }
    ensures { result ≡ next_with (λ row. slice_index row column) value main.now first }
{
    match first {
        Some(n) if n < main.rows() => first_with(main, column, value, n + 1),
        _ => None,
    }
}

// The last row that has this in a column.
fn last_with(main: &Table<65>, column: usize, value: Felt) -> Option<usize>
    requires { column < 65 }
    ensures { result ≡ last_with (λ row. slice_index row column) value 0 main.now }
{
    let mut last = None;
    for i in 0..main.rows() {
        last = later(last, i, has_at(main, i, column, value));
    }
    last
}

fn has_at(main: &Table<65>, row: usize, column: usize, value: Felt) -> bool
    requires row { row < length main.now }
    requires column { column < 65 }
    ensures { result ≡ (slice_index (slice_index_or main.now row []) column == value) }
{
    main.row(row).cell(column) == value
}

fn later(last: Option<usize>, row: usize, has: bool) -> Option<usize>
    ensures { result ≡ or_before (if has then Some row else None) last }
{
    if has { Some(row) } else { last }
}

fn in_front(row: Option<usize>) -> Option<usize>
    ensures { result ≡ in_front row }
{
    match row {
        None | Some(0) => None,
        Some(n) => Some(n - 1),
    }
}

fn other_than(other: Option<usize>, row: Option<usize>) -> Option<usize>
    ensures { result ≡ other_than other row }
{
    match (other, row) {
        (Some(other), Some(row)) if row != other => Some(row),
        _ => None,
    }
}
