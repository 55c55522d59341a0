use crate::tests::content::{Content, bytes_of};
use show_app::{Seed, serve_show};
use std::alloc::Global;
use std::process::Abort;
use std::test::Fail;
use std::thread::Threads;
use vm_field::Memory;
use vm_io::{MemShelf, MemSink, OpenGate};

/// One call of `serve_show`, and what it leaves.
#[derive(Drop)]
pub struct Row {
    pub words: &'static [&'static str],

    /// The files that stand on the shelf, before and after.
    pub files: &'static [(&'static str, Content)],

    /// The call of the shelf that fails, from 1; 0 for none.
    pub failing_call: u64,

    pub number: u8,
    pub printed: &'static str,
}

/// Fails at the first row that is not so.
pub fn all_hold(
    rt: &(impl Abort + AllocGlobal + Threads + Sync),
    rows: &[Row],
) -> Result<(), Fail> {
    for row in rows {
        let holds = holds(rt, rt.alloc(), row)?;
        assert!(rt; holds, "{}", row.printed);
    }
    Ok(())
}

fn holds(rt: &(impl Threads + Sync), alloc: Global, row: &Row) -> Result<bool, Memory> {
    let mut shelf = MemShelf::new(alloc);
    for (name, content) in row.files {
        shelf.put(name, bytes_of(alloc, content)?.as_slice())?;
    }
    if row.failing_call != 0 {
        shelf.fail(row.failing_call)?;
    }
    let words = words_of(alloc, row.words)?;
    let mut sink = MemSink::new(alloc);
    let status = serve_show(
        rt,
        alloc,
        Seed::new(0),
        words.as_slice(),
        &mut shelf,
        &mut sink,
        &OpenGate,
    );
    Ok(
        status.number() == row.number
            && sink.taken() == row.printed.as_bytes()
            && files_stand(alloc, &shelf, row.files)?,
    )
}

fn words_of(alloc: Global, texts: &[&str]) -> Result<Vec<Vec<u8>>, Memory> {
    let mut words = Vec::new(alloc);
    for text in texts {
        words.push(Vec::from_slice(alloc, text.as_bytes())?)?;
    }
    Ok(words)
}

fn files_stand(alloc: Global, shelf: &MemShelf, files: &[(&str, Content)]) -> Result<bool, Memory> {
    for (name, content) in files {
        let bytes = bytes_of(alloc, content)?;
        let stands = match shelf.get(name) {
            Some(file) => file == bytes.as_slice(),
            None => false,
        };
        if !stands {
            return Ok(false);
        }
    }
    Ok(true)
}
