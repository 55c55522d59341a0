//! A line of a source as it is shown, with a mark under a place of it.
ghost use Rattle.std.specs.Prelude.{◌≡◌, ◌++◌, map, replicate, IfOk, OnOk};
ghost use Rattle.show_why.specs.Lines.{byte_at, line_at, mark_line, shown_byte, shown_line};

use masm_reading::split;
use show_tokens::front;
use std::alloc::Global;
use vm_field::{Bytes, Memory};

// Of a line so many bytes are shown.
const MOST_SHOWN: usize = 200;

// The line of this number.
fn line_at(alloc: Global, source: &[u8], line: u32) -> Result<&[u8], Memory>
    ensures { IfOk result (λ found. found.now ≡ line_at source.entry.now line) }
{
    let lines = split(alloc, source, b'\n')?;
    match lines.get((line as usize).saturating_sub(1)) {
        Some(found) => Ok(*found),
        None => Ok(b"".as_slice()),
    }
}

// The byte at a column of a line, and 0 behind its end.
pub(crate) fn byte_at(alloc: Global, source: &[u8], line: u32, column: u32) -> Result<u8, Memory>
    ensures { IfOk result (λ byte. byte ≡ byte_at source.now line column) }
{
    let found = line_at(alloc, source, line)?;
    match found.get((column as usize).saturating_sub(1)) {
        Some(byte) => Ok(*byte),
        None => Ok(0),
    }
}

fn shown_byte(byte: u8) -> u8
    ensures { result ≡ shown_byte byte }
{
    match byte {
        b' '..=b'~' => byte,
        b'\t' => b' ',
        _ => b'?',
    }
}

fn append_shown(text: &mut Bytes, bytes: &[u8]) -> Result<(), Memory>
    ensures { OnOk result (text.new ≡ text.old ++ map shown_byte bytes.now) }
{
    for byte in bytes {
        text.push(shown_byte(*byte))?;
    }
    Ok(())
}

fn append_spaces(text: &mut Bytes, count: usize) -> Result<(), Memory>
    ensures { OnOk result (text.new ≡ text.old ++ replicate count 32) }
{
    for space in 0..count {
        text.push(b' ')?;
    }
    Ok(())
}

fn append_mark(text: &mut Bytes, column: u32) -> Result<(), Memory>
    ensures { OnOk result (text.new ≡ text.old ++ mark_line column) }
{
    let column = column as usize;
    if column > MOST_SHOWN {
        return Ok(());
    }
    append_spaces(text, column.saturating_sub(1))?;
    text.append(b"^\n")
}

// Adds the line of a place, and a mark under it.
pub(crate) fn append_line(
    alloc: Global,
    text: &mut Bytes,
    source: &[u8],
    line: u32,
    column: u32,
) -> Result<(), Memory>
    ensures { OnOk result (text.new ≡ text.old ++ shown_line source.now line column) }
{
    let found = line_at(alloc, source, line)?;
    append_shown(text, front(found, MOST_SHOWN))?;
    text.append(b"\n")?;
    append_mark(text, column)
}
