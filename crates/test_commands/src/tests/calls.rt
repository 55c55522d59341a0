use crate::tests::content::{Content, bytes_of};
use crate::tests::row::{CHECK, Change, Fault, Forgery, Row};
use miden_app::{Seed, serve};
use std::alloc::Global;
use std::process::Abort;
use std::test::Fail;
use std::thread::Threads;
use vm_field::Memory;
use vm_io::{MemShelf, MemSink, OpenGate};

/// Fails at the first row that is not so.
pub fn all_hold(
    rt: &(impl Abort + AllocGlobal + Threads + Sync),
    rows: &[Row],
) -> Result<(), Fail> {
    all_leave(rt, rows, &[], &[])
}

/// Fails at the first row that is not so, or behind which one of the first files is missing or one of the others stands.
pub fn all_leave(
    rt: &(impl Abort + AllocGlobal + Threads + Sync),
    rows: &[Row],
    there: &[&str],
    missing: &[&str],
) -> Result<(), Fail> {
    for row in rows {
        let holds = leaves(rt, rt.alloc(), row, there, missing)?;
        assert!(rt; holds, "{}", row.printed);
    }
    Ok(())
}

fn leaves(
    rt: &(impl Threads + Sync),
    alloc: Global,
    row: &Row,
    there: &[&str],
    missing: &[&str],
) -> Result<bool, Memory> {
    let mut shelf = shelf_of(alloc, row)?;
    let mut all = answers(rt, alloc, row, &mut shelf)?;
    for name in there {
        all = all && shelf.get(name).is_some();
    }
    for name in missing {
        all = all && shelf.get(name).is_none();
    }
    Ok(all)
}

/// Fails at the first words that are those of a command.
pub fn all_wrong(
    rt: &(impl Abort + AllocGlobal + Threads + Sync),
    lines: &[&'static [u8]],
) -> Result<(), Fail> {
    for words in lines {
        let holds = is_usage(rt, rt.alloc(), words)?;
        assert!(rt; holds, "{words:?}");
    }
    Ok(())
}

fn is_usage(
    rt: &(impl Threads + Sync),
    alloc: Global,
    words: &'static [u8],
) -> Result<bool, Memory> {
    let row = Row {
        words,
        files: &[],
        number: 2,
        printed: "usage\n",
        fault: Fault::Nothing,
    };
    answers(rt, alloc, &row, &mut MemShelf::new(alloc))
}

/// Fails at the first row that is not so, or behind which the file does not stand that is written.
pub fn all_write(
    rt: &(impl Abort + AllocGlobal + Threads + Sync),
    rows: &[Row],
    name: &str,
    content: &Content,
) -> Result<(), Fail> {
    for row in rows {
        let holds = writes(rt, rt.alloc(), row, name, content)?;
        assert!(rt; holds, "{}", row.printed);
    }
    Ok(())
}

fn writes(
    rt: &(impl Threads + Sync),
    alloc: Global,
    row: &Row,
    name: &str,
    content: &Content,
) -> Result<bool, Memory> {
    let mut shelf = shelf_of(alloc, row)?;
    let is_answered = answers(rt, alloc, row, &mut shelf)?;
    Ok(is_answered && stands(&shelf, name, bytes_of(alloc, content)?.as_slice()))
}

/// Fails at the first row of `check` that is not so with its trace in one, two or sixty-four pieces.
pub fn all_hold_in_pieces(
    rt: &(impl Abort + AllocGlobal + Threads + Sync),
    rows: &[Row],
) -> Result<(), Fail> {
    for pieces in ["1", "2", "64"] {
        for row in rows {
            let holds = holds_in_pieces(rt, rt.alloc(), row, pieces)?;
            assert!(rt; holds, "{}", row.printed);
        }
    }
    Ok(())
}

fn holds_in_pieces(
    rt: &(impl Threads + Sync),
    alloc: Global,
    row: &Row,
    pieces: &str,
) -> Result<bool, Memory> {
    let mut shelf = shelf_of(alloc, row)?;
    let mut words = words_of(alloc, row.words)?;
    words.push(Vec::from_slice(alloc, b"--pieces")?)?;
    words.push(Vec::from_slice(alloc, pieces.as_bytes())?)?;
    answers_words(rt, alloc, words.as_slice(), row, &mut shelf)
}

/// Fails at the first row that is not so, or behind which `CHECK` does not print that a run is accepted.
pub fn all_accepted(
    rt: &(impl Abort + AllocGlobal + Threads + Sync),
    rows: &[Row],
) -> Result<(), Fail> {
    let next = Row {
        words: CHECK,
        files: &[],
        number: 0,
        printed: "accepted run\n",
        fault: Fault::Nothing,
    };
    for run in rows {
        let forgery = Forgery {
            run: *run,
            changes: &[],
            next,
        };
        all_forged(rt, &[forgery])?;
    }
    Ok(())
}

/// Fails at the first row that is not so.
pub fn all_forged(
    rt: &(impl Abort + AllocGlobal + Threads + Sync),
    rows: &[Forgery],
) -> Result<(), Fail> {
    for row in rows {
        let holds = forged(rt, rt.alloc(), row)?;
        assert!(rt; holds, "{}{}", row.run.printed, row.next.printed);
    }
    Ok(())
}

fn forged(rt: &(impl Threads + Sync), alloc: Global, row: &Forgery) -> Result<bool, Memory> {
    let mut shelf = shelf_of(alloc, &row.run)?;
    let is_run = answers(rt, alloc, &row.run, &mut shelf)?;
    let is_forged = forge(alloc, &mut shelf, row.changes)?;
    Ok(is_run && is_forged && answers(rt, alloc, &row.next, &mut shelf)?)
}

// Whether each change was one of what stands there.
fn forge(alloc: Global, shelf: &mut MemShelf, changes: &[Change]) -> Result<bool, Memory> {
    let mut all = true;
    let mut bytes = match shelf.get("t") {
        Some(file) => Vec::from_slice(alloc, file)?,
        None => Vec::new(alloc),
    };
    for change in changes {
        match change {
            Change::Statement(text) => shelf.put("u", text.as_bytes())?,
            _ => all = change_bytes(&mut bytes, change) && all,
        }
    }
    shelf.put("t", bytes.as_slice())?;
    Ok(all)
}

// Whether the bytes had what was changed.
fn change_bytes(bytes: &mut Vec<u8>, change: &Change) -> bool {
    match change {
        Change::Cell(row, column, value) => {
            *column < 65 && put_element(bytes, row.wrapping_mul(65).wrapping_add(*column), *value)
        }
        Change::Elements(place, values) => put_elements(bytes, *place, values),
        Change::Rows(table, count) => {
            let at = table.wrapping_mul(4).wrapping_add(8);
            if *table >= 7 || bytes.len() <= at {
                return false;
            }
            bytes[at] = *count;
            true
        }
        Change::Size(size) => {
            let is_within = *size <= bytes.len();
            bytes.truncate(*size);
            is_within
        }
        Change::Statement(_) => true,
    }
}

// Whether the bytes had the elements that were put.
fn put_elements(bytes: &mut Vec<u8>, place: usize, values: &[u64]) -> bool {
    let mut all = true;
    for i in 0..values.len() {
        all = put_element(bytes, place.wrapping_add(i), values[i]) && all;
    }
    all
}

// Whether the bytes had the element that was put.
fn put_element(bytes: &mut Vec<u8>, place: usize, value: u64) -> bool {
    let element = value.to_le_bytes();
    for i in 0..8usize {
        let at = place.wrapping_mul(8).wrapping_add(i).wrapping_add(36);
        if bytes.len() <= at {
            return false;
        }
        bytes[at] = element[i];
    }
    true
}

/// The number of the status that `serve` gives for the row's words.
pub fn served(
    rt: &(impl Threads + Sync),
    alloc: Global,
    row: &Row,
    shelf: &mut MemShelf,
    sink: &mut MemSink,
) -> Result<u8, Memory> {
    let words = words_of(alloc, row.words)?;
    let status = serve(
        rt,
        alloc,
        Seed::new(0),
        words.as_slice(),
        shelf,
        sink,
        &OpenGate,
    );
    Ok(status.number())
}

/// Whether `serve` answers as the row says.
pub fn answers(
    rt: &(impl Threads + Sync),
    alloc: Global,
    row: &Row,
    shelf: &mut MemShelf,
) -> Result<bool, Memory> {
    let words = words_of(alloc, row.words)?;
    answers_words(rt, alloc, words.as_slice(), row, shelf)
}

/// Whether it answers these words so.
pub fn answers_words(
    rt: &(impl Threads + Sync),
    alloc: Global,
    words: &[Vec<u8>],
    row: &Row,
    shelf: &mut MemShelf,
) -> Result<bool, Memory> {
    let mut sink = MemSink::new(alloc);
    if let Fault::Write(nth) = row.fault {
        sink.fail(nth)?;
    }
    let status = serve(rt, alloc, Seed::new(0), words, shelf, &mut sink, &OpenGate);
    Ok(
        status.number() == row.number
            && sink.taken() == row.printed.as_bytes()
            && files_stand(alloc, shelf, row.files)?,
    )
}

/// The shelf of a row before its call.
pub fn shelf_of(alloc: Global, row: &Row) -> Result<MemShelf, Memory> {
    let mut shelf = MemShelf::new(alloc);
    for (name, content) in row.files {
        shelf.put(name, bytes_of(alloc, content)?.as_slice())?;
    }
    if let Fault::Call(nth) = row.fault {
        shelf.fail(nth)?;
    }
    Ok(shelf)
}

// The words between spaces.
fn words_of(alloc: Global, line: &[u8]) -> Result<Vec<Vec<u8>>, Memory> {
    let mut words = Vec::new(alloc);
    let mut word = Vec::new(alloc);
    for byte in line {
        if *byte == b' ' {
            words.push(word)?;
            word = Vec::new(alloc);
        } else {
            word.push(*byte)?;
        }
    }
    words.push(word)?;
    Ok(words)
}

fn files_stand(alloc: Global, shelf: &MemShelf, files: &[(&str, Content)]) -> Result<bool, Memory> {
    for (name, content) in files {
        if !stands(shelf, name, bytes_of(alloc, content)?.as_slice()) {
            return Ok(false);
        }
    }
    Ok(true)
}

fn stands(shelf: &MemShelf, name: &str, bytes: &[u8]) -> bool {
    match shelf.get(name) {
        Some(file) => file == bytes,
        None => false,
    }
}
