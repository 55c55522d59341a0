use air_kit::{Trace, has_counts};
use miden_app::{Seed, serve};
use std::alloc::Global;
use std::thread::Threads;
use table_file::{decode, encode};
use vm_field::{Felt, Memory};
use vm_io::{MemShelf, MemSink, OpenGate};
use vm_table::Table;

static RUN: [&str; 8] = ["run", "z", "s", "i", "--out", "t", "--statement", "u"];

static CHECK: [&str; 6] = ["check", "z", "t", "u", "--evidence", "e"];

/// The element of this number.
pub(super) fn element(number: u64) -> Felt {
    Felt::try_from_u64(number).unwrap_or(Felt::ZERO)
}

/// A shelf with constants that are all 0 and with what a run of this program without inputs writes.
pub(super) fn ran(
    rt: &(impl Threads + Sync),
    alloc: Global,
    source: &str,
) -> Result<MemShelf, Memory> {
    let mut shelf = MemShelf::new(alloc);
    shelf.put("z", zeros(alloc)?.as_slice())?;
    shelf.put("s", source.as_bytes())?;
    shelf.put("i", br#"{"advice":[],"stack":[]}"#)?;
    let _lines = said(rt, alloc, &mut shelf, &RUN)?;
    Ok(shelf)
}

/// 168 lines, each `0`.
pub(super) fn zeros(alloc: Global) -> Result<Vec<u8>, Memory> {
    let mut text = Vec::new(alloc);
    for _ in 0..168 {
        text.push(b'0')?;
        text.push(b'\n')?;
    }
    Ok(text)
}

/// What `check` prints of the files of the shelf.
pub(super) fn checked(
    rt: &(impl Threads + Sync),
    alloc: Global,
    shelf: &mut MemShelf,
) -> Result<Vec<u8>, Memory> {
    said(rt, alloc, shelf, &CHECK)
}

// What `serve` prints at these words.
fn said(
    rt: &(impl Threads + Sync),
    alloc: Global,
    shelf: &mut MemShelf,
    texts: &[&str],
) -> Result<Vec<u8>, Memory> {
    let mut words = Vec::new(alloc);
    for text in texts {
        words.push(Vec::from_slice(alloc, text.as_bytes())?)?;
    }
    let mut sink = MemSink::new(alloc);
    let _status = serve(
        rt,
        alloc,
        Seed::new(0),
        words.as_slice(),
        shelf,
        &mut sink,
        &OpenGate,
    );
    Ok(Vec::from_slice(alloc, sink.taken())?)
}

/// The trace in the table file of the shelf, if there is one.
pub(super) fn trace_in(alloc: Global, shelf: &MemShelf) -> Option<Trace> {
    decode(alloc, shelf.get("t")?).ok()
}

/// Puts the table file of a trace on the shelf, and answers whether it has as many rows as it may.
pub(super) fn put_trace(
    alloc: Global,
    shelf: &mut MemShelf,
    trace: &Trace,
) -> Result<bool, Memory> {
    if !has_counts(trace) {
        return Ok(false);
    }
    shelf.put("t", encode(alloc, trace)?.as_slice())?;
    Ok(true)
}

/// Changes a cell, and answers whether there is one.
pub(super) fn set<const W: usize>(
    table: &mut Table<W>,
    row: usize,
    column: usize,
    number: u64,
) -> bool {
    if row >= table.rows() || column >= W {
        return false;
    }
    table.set_cell(row, column, element(number));
    true
}
