use std::alloc::Global;
use vm_field::Memory;

/// An element in the place of another one: its number in the file, from 0, and its value.
pub type Other = (usize, u64);

// The elements that are not 0 of the four rows of the main table of `begin end`: SPAN, NOOP, END and HALT.
static MAIN: [Other; 30] = [
    (1, 1073741824),
    (9, 1),
    (12, 1),
    (15, 1),
    (46, 16),
    (65, 1),
    (66, 1073741824),
    (73, 1),
    (89, 1),
    (111, 16),
    (114, 1),
    (115, 1),
    (130, 2),
    (131, 1073741824),
    (138, 1),
    (141, 1),
    (142, 1),
    (145, 1),
    (151, 1),
    (176, 16),
    (179, 1),
    (180, 1),
    (195, 3),
    (196, 1073741824),
    (204, 1),
    (205, 1),
    (206, 1),
    (207, 1),
    (210, 1),
    (241, 16),
];

// A row of the bitwise table whose operation is none.
static NO_OPERATION: [u64; 12] = [2, 0, 0, 0, 0, 0, 0, 0, 0, 0, 0, 0];

// The first access of all, which reads a zero, and one at its address and its clock, which writes a 1: the clock grows by -1 + 1.
static FIRST_ACCESS: [u64; 14] = [0, 0, 0, 0, 0, 0, 0, 0, 1, 0, 0, 0, 0, 0];

static SAME_CLOCK: [u64; 14] = [1, 0, 0, 0, 1, 0, 0, 0, 0, 0, 18446744069414584320, 0, 0, 0];

/// A row by its cells that are not 0: the number of each one's column, and its value.
pub type Cells = &'static [Other];

// Rows beside those of `begin end`.
#[derive(Clone, Copy)]
struct MoreRows {
    // At the front of the range table, each of which gives 0 once.
    range: u64,
    bitwise: u64,
    // The first access, and those at its clock.
    memory: u64,
}

/// What a file holds.
pub enum Content {
    /// The table file of `begin end` under constants that are all 0, with other elements in these places, as long as so many bytes.
    Table(&'static [Other], usize),
    /// That file with these rows in its main table in place of its own.
    Main(&'static [Cells]),
    /// That file with so many rows more at the front of its range table, each of which gives 0 once.
    RangeRows(u64),
    /// That file with so many rows in its bitwise table, each with 2 in its column `op`.
    BitwiseRows(u64),
    /// That file with so many rows in its memory table: one reads 0 at the address 0 and the clock 0, and each other one writes 1 there.
    MemoryRows(u64),
    /// So many lines `0`.
    Zeros(usize),
    /// This text.
    Text(&'static str),
}

/// The bytes of a file.
pub fn bytes_of(alloc: Global, content: &Content) -> Result<Vec<u8>, Memory> {
    match content {
        Content::Table(others, size) => table(alloc, others, more(0, 0, 0), *size),
        Content::Main(rows) => main_table(alloc, rows),
        Content::RangeRows(count) => table(alloc, &[], more(*count, 0, 0), usize::MAX),
        Content::BitwiseRows(count) => table(alloc, &[], more(0, *count, 0), usize::MAX),
        Content::MemoryRows(count) => table(alloc, &[], more(0, 0, *count), usize::MAX),
        Content::Zeros(count) => zeros(alloc, *count),
        Content::Text(text) => Ok(Vec::from_slice(alloc, text.as_bytes())?),
    }
}

fn more(range: u64, bitwise: u64, memory: u64) -> MoreRows {
    MoreRows {
        range,
        bitwise,
        memory,
    }
}

// Four rows of the main table, 42 of the range table, and a permutation of zeros, with more rows.
fn table(alloc: Global, others: &[Other], more: MoreRows, size: usize) -> Result<Vec<u8>, Memory> {
    let mut bytes = Vec::from_slice(alloc, b"MDTB")?;
    let range_rows = more.range.saturating_add(42);
    for count in [2, 4, range_rows, 8, more.bitwise, more.memory, 0, 0] {
        push_number(&mut bytes, count, 4)?;
    }
    let mut range = 0u64;
    for place in 0..464usize {
        if place == 260 {
            for _ in 0..more.range {
                push_row(&mut bytes, &[1, 0])?;
            }
        }
        let value = if place < 260 {
            found(&MAIN, place).unwrap_or(0)
        } else {
            range_element(place, &mut range)
        };
        push_number(&mut bytes, found(others, place).unwrap_or(value), 8)?;
    }
    for _ in 0..more.bitwise {
        push_row(&mut bytes, &NO_OPERATION)?;
    }
    for number in 0..more.memory {
        push_row(&mut bytes, access(number))?;
    }
    bytes.truncate(size);
    Ok(bytes)
}

// These rows of the main table, and the other tables of `begin end`.
fn main_table(alloc: Global, rows: &[Cells]) -> Result<Vec<u8>, Memory> {
    let mut bytes = Vec::from_slice(alloc, b"MDTB")?;
    for count in [2, rows.len() as u64, 42, 8, 0, 0, 0, 0] {
        push_number(&mut bytes, count, 4)?;
    }
    for row in rows {
        for column in 0..65usize {
            push_number(&mut bytes, found(*row, column).unwrap_or(0), 8)?;
        }
    }
    let mut range = 0u64;
    for place in 260..464usize {
        push_number(&mut bytes, range_element(place, &mut range), 8)?;
    }
    Ok(bytes)
}

// The row of memory of this number.
fn access(number: u64) -> &'static [u64] {
    if number == 0 {
        &FIRST_ACCESS
    } else {
        &SAME_CLOCK
    }
}

fn push_row(bytes: &mut Vec<u8>, row: &[u64]) -> Result<(), Memory> {
    for cell in row {
        push_number(bytes, *cell, 8)?;
    }
    Ok(())
}

fn found(others: &[Other], place: usize) -> Option<u64> {
    others
        .iter()
        .find(|other| other.0 == place)
        .map(|other| other.1)
}

// The counts and the values of the range table: the start of the span asks for 1023, once.
fn range_element(place: usize, value: &mut u64) -> u64 {
    if place >= 344 {
        return 0;
    }
    if place % 2 == 0 {
        return if *value == 1023 { 1 } else { 0 };
    }
    let now = *value;
    let end = if now < 1023 { 1023u64 } else { 65535 };
    let rest = end.saturating_sub(now);
    let step = [2187, 729, 243, 81, 27, 9, 3, 1]
        .iter()
        .copied()
        .find(|step| *step <= rest);
    *value = now.saturating_add(step.unwrap_or(0));
    now
}

fn push_number(bytes: &mut Vec<u8>, number: u64, size: usize) -> Result<(), Memory> {
    for byte in number.to_le_bytes().iter().take(size) {
        bytes.push(*byte)?;
    }
    Ok(())
}

fn zeros(alloc: Global, count: usize) -> Result<Vec<u8>, Memory> {
    let mut text = Vec::new(alloc);
    for _ in 0..count {
        text.extend_from_slice(b"0\n")?;
    }
    Ok(text)
}
