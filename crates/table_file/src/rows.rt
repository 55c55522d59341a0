ghost use Rattle.std.specs.Prelude.{◌≡◌, IsTrue, ◌+◌, ◌*◌, ◌^◌, ◌<◌, ◌≤◌, ℕ, List, drop, length, Ok, Err, IfOk, OnOk, IfErr};
ghost use Rattle.table_file.specs.Fields.{GivesRead, element_at, row_at, rows_at};
ghost use Rattle.table_file.specs.Reading.{ReadsRows, StandsAt};

use crate::cause::{FileCause, FileError, bad};
use crate::head::part_from;
use byteorder::{ByteOrder, LittleEndian};
use vm_field::Felt;
use vm_table::Table;

/// How many bytes an element has.
pub(crate) const ELEMENT_BYTES: usize = 8;

/// Reads rows of a table, as many as stand whole in the bytes and are still to come, and answers how many bytes they have. The
/// bytes stand at a place of the file.
pub(crate) fn take_rows<const W: usize>(
    table: &mut Table<W>,
    left: &mut usize,
    bytes: &[u8],
    at: usize,
) -> Result<usize, FileError>
    requires wide { (1 ≤ W) × (W ≤ 65) }
    requires some { 0 < left.old }
    requires small { at + 8 * W * left.old ≤ 2 ^ 35 }
    requires enough { 8 * W ≤ length bytes.now }
    ensures ok { IfOk result (λ count. ReadsRows W at bytes.now left.old left.new table.old table.new count) }
    ensures some { IfOk result (λ count. 8 * W ≤ count) }
    ensures err { IfErr result (λ error. (all : List ℕ) → StandsAt all at bytes.now → GivesRead (Err error) (rows_at all W left.old at)) }
{
    let size = ELEMENT_BYTES * W;
    // Room for all rows at once spares moving those that are read; a table that gets none grows by itself.
    if table.rows() == 0 {
        let _ = table.reserve(*left);
    }
    let mut row = [Felt::ZERO; W];
    let mut used = 0;
    while 0 < *left && size <= bytes.len() - used {
        read_row(&bytes[used..used + size], at + used, &mut row)?;
        table.push_row(&row)?;
        *left -= 1;
        used += size;
    }
    Ok(used)
}

// The row that these bytes are.
fn read_row<const W: usize>(part: &[u8], at: usize, row: &mut [Felt; W]) -> Result<(), FileError>
    requires narrow { W ≤ 65 }
    requires place { at ≤ 2 ^ 35 }
    requires whole { length part.now ≡ 8 * W }
    ensures ok { OnOk result ((all : List ℕ) → StandsAt all at part.now → row_at all W at ≡ Ok row.new) }
    ensures err { IfErr result (λ error. (all : List ℕ) → StandsAt all at part.now → row_at all W at ≡ Err error) }
{
    if are_elements(part, row) {
        Ok(())
    } else {
        read_elements(part, at, row)
    }
}

// Whether all elements of a row are elements, which it then is. It tests them with no stop on the way.
#[inline(always)]
fn are_elements<const W: usize>(part: &[u8], row: &mut [Felt; W]) -> bool
    requires narrow { W ≤ 65 }
    requires whole { length part.now ≡ 8 * W }
    ensures { IsTrue result → (all : List ℕ) (at : ℕ) → StandsAt all at part.now → row_at all W at ≡ Ok row.new }
{
    let mut are = true;
    for j in 0..W {
        let (element, is_one) = element_or_zero(part, j);
        row[j] = element;
        are &= is_one;
    }
    are
}

// The element of this number, and true; 0, and false, where there is none.
#[inline(always)]
fn element_or_zero(part: &[u8], j: usize) -> (Felt, bool)
    requires number { j < 65 }
    requires inside { 8 * j + 8 ≤ length part.now }
    ensures { IsTrue result.1 → (all : List ℕ) (at : ℕ) → StandsAt all at part.now → Ok result.0 ≡ element_at all (at + 8 * j) }
{
    match Felt::try_from_u64(LittleEndian::read_u64(part_from(part, ELEMENT_BYTES * j))) {
        Ok(element) => (element, true),
        Err(_) => (Felt::ZERO, false),
    }
}

// The row that these bytes are, element by element.
#[inline(never)]
fn read_elements<const W: usize>(
    part: &[u8],
    at: usize,
    row: &mut [Felt; W],
) -> Result<(), FileError>
    requires narrow { W ≤ 65 }
    requires place { at ≤ 2 ^ 35 }
    requires whole { length part.now ≡ 8 * W }
    ensures ok { OnOk result ((all : List ℕ) → StandsAt all at part.now → row_at all W at ≡ Ok row.new) }
    ensures err { IfErr result (λ error. (all : List ℕ) → StandsAt all at part.now → row_at all W at ≡ Err error) }
{
    let whole = &part[..ELEMENT_BYTES * W];
    for j in 0..W {
        let element = element_in(whole, at, j)?;
        row[j] = element;
    }
    Ok(())
}

// The element of this number in bytes that stand at a place.
fn element_in(part: &[u8], at: usize, j: usize) -> Result<Felt, FileError>
    requires place { at ≤ 2 ^ 35 }
    requires number { j < 65 }
    requires inside { 8 * j + 8 ≤ length part.now }
    ensures { (all : List ℕ) → StandsAt all at part.now → result ≡ element_at all (at + 8 * j) }
{
    match Felt::try_from_u64(LittleEndian::read_u64(part_from(part, ELEMENT_BYTES * j))) {
        Ok(element) => Ok(element),
        Err(_) => Err(bad(at + ELEMENT_BYTES * j, FileCause::Element)),
    }
}

/// Why no row comes of the last bytes of a file, which are fewer than a row has.
pub(crate) fn cut_row(part: &[u8], at: usize) -> FileError
    requires place { at ≤ 2 ^ 35 }
    requires short { length part.now < 520 }
    ensures { (all : List ℕ) (width : ℕ) → drop at all ≡ part.now → length part.now < 8 * width → row_at all width at ≡ Err result }
{
    let whole = part.len() / ELEMENT_BYTES;
    for j in 0..whole {
        match element_in(part, at, j) {
            Ok(_) => {}
            Err(error) => return error,
        }
    }
    bad(at + ELEMENT_BYTES * whole, FileCause::Ended)
}
