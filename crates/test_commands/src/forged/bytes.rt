use super::shelf::{checked, ran, zeros};
use std::alloc::Global;
use std::test::Fail;
use std::thread::Threads;
use vm_field::Memory;
use vm_io::MemShelf;

// A byte is replaced by those in which these bits are others.
static OTHER_BITS: [u8; 7] = [1, 2, 4, 16, 64, 128, 255];

// The evidence of the empty program's run.
static EVIDENCE: &str = "run\ncycles 3\ntape\nspan 1\nbatch 0 0 0 0 0 0 0 0\n";

// Whether a file's bytes are this text.
fn is_text(bytes: Option<&[u8]>, text: &str) -> bool {
    match bytes {
        Some(bytes) => bytes == text.as_bytes(),
        None => false,
    }
}

// Whether `check` says why it refuses the table file, and writes nothing, or accepts it with the evidence of the run.
fn is_answered(
    rt: &(impl Threads + Sync),
    alloc: Global,
    table: &[u8],
    statement: &[u8],
) -> Result<bool, Memory> {
    let mut shelf = MemShelf::new(alloc);
    shelf.put("z", zeros(alloc)?.as_slice())?;
    shelf.put("t", table)?;
    shelf.put("u", statement)?;
    let said = checked(rt, alloc, &mut shelf)?;
    Ok(if said.as_slice() == b"accepted run\n".as_slice() {
        is_text(shelf.get("e"), EVIDENCE)
    } else {
        let is_named = said.starts_with(b"malformed t offset ") || said.starts_with(b"refused ");
        is_named && shelf.get("e").is_none()
    })
}

// Whether the table file is answered so, whichever seven others stand for its byte at this place.
fn others_are_answered(
    rt: &(impl Threads + Sync),
    alloc: Global,
    table: &[u8],
    statement: &[u8],
    at: usize,
) -> Result<bool, Memory> {
    let mut all = true;
    for bits in &OTHER_BITS {
        let mut changed = Vec::from_slice(alloc, table)?;
        match changed.get_mut(at) {
            Some(byte) => *byte ^= *bits,
            None => return Ok(false),
        }
        all = is_answered(rt, alloc, changed.as_slice(), statement)? && all;
    }
    Ok(all)
}

// Whether the file of the empty program's run has so many bytes, and each of them is answered so.
fn all_are_answered(
    rt: &(impl Threads + Sync),
    alloc: Global,
    length: usize,
) -> Result<bool, Memory> {
    let shelf = ran(rt, alloc, "begin end")?;
    let (Some(table), Some(statement)) = (shelf.get("t"), shelf.get("u")) else {
        return Ok(false);
    };
    let mut all = table.len() == length;
    for at in 0..table.len() {
        all = others_are_answered(rt, alloc, table, statement, at)? && all;
    }
    Ok(all)
}

#[test]
fn each_byte_is_answered(rt: HostRuntime) -> Result<(), Fail> {
    assert!(rt; all_are_answered(&rt, rt.alloc(), 3748)?);
    Ok(())
}
