use std::alloc::Global;
use vm_field::Memory;

/// An element in the place of another one: its number in the file, from 0, and its value.
pub type Other = (usize, u64);

macro_rules! others {
    ($($place:literal = $value:literal)*) => {
        [$(($place, $value)),*]
    };
}

// The elements that are not 0 of the four rows of the main table of `begin end`: SPAN, NOOP, END and HALT.
static MAIN: [Other; 30] = others! {
    1=1073741824 9=1 12=1 15=1 46=16
    65=1 66=1073741824 73=1 89=1 111=16 114=1 115=1
    130=2 131=1073741824 138=1 141=1 142=1 145=1 151=1 176=16 179=1 180=1
    195=3 196=1073741824 204=1 205=1 206=1 207=1 210=1 241=16
};

/// The statement of `begin end`.
pub const STATEMENT: &str =
    r#"{"digest":"0000000000000000000000000000000000000000000000000000000000000000","inputs":[],"kernel":[],"outputs":[0,0,0,0,0,0,0,0,0,0,0,0,0,0,0,0]}"#;

/// What a file holds.
pub enum Content {
    /// A table file: how many rows each table has, and runs of elements, each with the number of its first one. The others are 0.
    Built([u64; 7], &'static [(usize, &'static [u64])]),
    /// The table file of `begin end` under constants that are all 0, with other elements in these places, as long as so many bytes.
    Table(&'static [Other], usize),
    /// That file as this version of the format has it.
    Version(u64),
    /// Inputs of so many zeros, without advice.
    Inputs(usize),
    /// So many lines, each `0`, but the line of this number is this one.
    Lines(usize, usize, &'static str),
    /// This text, so many times.
    Repeated(usize, &'static str),
    /// This text.
    Text(&'static str),
    /// These bytes.
    Bytes(&'static [u8]),
}

// Runs of elements, each behind the number of its first one.
macro_rules! elements {
    ($($start:literal [$($element:literal)*])*) => {
        &[$(($start, &[$($element),*])),*]
    };
}

pub(crate) use elements;

/// The bytes of a file.
pub fn bytes_of(alloc: Global, content: &Content) -> Result<Vec<u8>, Memory> {
    match content {
        Content::Built(rows, runs) => built(alloc, rows, runs),
        Content::Table(others, size) => table(alloc, 2, others, *size),
        Content::Version(version) => table(alloc, *version, &[], 3748),
        Content::Inputs(count) => inputs(alloc, *count),
        Content::Lines(count, place, other) => lines(alloc, *count, *place, other),
        Content::Repeated(count, text) => repeated(alloc, *count, text),
        Content::Text(text) => Ok(Vec::from_slice(alloc, text.as_bytes())?),
        Content::Bytes(bytes) => Ok(Vec::from_slice(alloc, bytes)?),
    }
}

// How many elements a row of each table has.
static WIDTHS: [u64; 7] = [65, 2, 15, 12, 14, 5, 1];

fn built(alloc: Global, rows: &[u64; 7], runs: &[(usize, &[u64])]) -> Result<Vec<u8>, Memory> {
    let mut bytes = Vec::from_slice(alloc, b"MDTB")?;
    push_number(&mut bytes, 2, 4)?;
    let mut size = 0u64;
    for table in 0..7usize {
        push_number(&mut bytes, rows[table], 4)?;
        size = size.wrapping_add(rows[table].wrapping_mul(WIDTHS[table]));
    }
    for (start, elements) in runs {
        fill_up(&mut bytes, *start)?;
        for element in *elements {
            push_number(&mut bytes, *element, 8)?;
        }
    }
    fill_up(&mut bytes, size as usize)?;
    Ok(bytes)
}

// Zeros up to the element of this number.
fn fill_up(bytes: &mut Vec<u8>, place: usize) -> Result<(), Memory> {
    for _ in bytes.len()..place.wrapping_mul(8).wrapping_add(36) {
        bytes.push(0)?;
    }
    Ok(())
}

// Four rows of the main table, 42 of the range table and a permutation of zeros.
fn table(alloc: Global, version: u64, others: &[Other], size: usize) -> Result<Vec<u8>, Memory> {
    let mut bytes = Vec::from_slice(alloc, b"MDTB")?;
    for count in [version, 4, 42, 8, 0, 0, 0, 0] {
        push_number(&mut bytes, count, 4)?;
    }
    let mut range = 0u64;
    for place in 0..464usize {
        let value = if place < 260 {
            found(&MAIN, place).unwrap_or(0)
        } else {
            range_element(place, &mut range)
        };
        push_number(&mut bytes, found(others, place).unwrap_or(value), 8)?;
    }
    bytes.truncate(size);
    for _ in bytes.len()..size {
        bytes.push(0)?;
    }
    Ok(bytes)
}

fn found(others: &[Other], place: usize) -> Option<u64> {
    others
        .iter()
        .find(|other| other.0 == place)
        .map(|other| other.1)
}

// The counts and the values of the range table: the start of the span asks for 1023, once.
fn range_element(place: usize, value: &mut u64) -> u64 {
    if place >= 344 {
        return 0;
    }
    if place % 2 == 0 {
        return if *value == 1023 { 1 } else { 0 };
    }
    let now = *value;
    let end = if now < 1023 { 1023u64 } else { 65535 };
    let rest = end.saturating_sub(now);
    let step = [2187, 729, 243, 81, 27, 9, 3, 1]
        .iter()
        .copied()
        .find(|step| *step <= rest);
    *value = now.saturating_add(step.unwrap_or(0));
    now
}

fn push_number(bytes: &mut Vec<u8>, number: u64, size: usize) -> Result<(), Memory> {
    for byte in number.to_le_bytes().iter().take(size) {
        bytes.push(*byte)?;
    }
    Ok(())
}

fn lines(alloc: Global, count: usize, place: usize, other: &str) -> Result<Vec<u8>, Memory> {
    let mut text = Vec::new(alloc);
    for i in 0..count {
        let line = if i + 1 == place { other } else { "0" };
        push_line(&mut text, line)?;
    }
    Ok(text)
}

fn inputs(alloc: Global, count: usize) -> Result<Vec<u8>, Memory> {
    let mut text = Vec::from_slice(alloc, br#"{"advice":[],"stack":["#)?;
    for i in 0..count {
        if 0 < i {
            text.push(b',')?;
        }
        text.push(b'0')?;
    }
    text.push(b']')?;
    text.push(b'}')?;
    Ok(text)
}

fn push_line(text: &mut Vec<u8>, line: &str) -> Result<(), Memory> {
    for byte in line.as_bytes() {
        text.push(*byte)?;
    }
    text.push(b'\n')?;
    Ok(())
}

fn repeated(alloc: Global, count: usize, text: &str) -> Result<Vec<u8>, Memory> {
    let mut bytes = Vec::new(alloc);
    for _ in 0..count {
        bytes.extend_from_slice(text.as_bytes())?;
    }
    Ok(bytes)
}
