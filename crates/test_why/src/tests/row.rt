use crate::tests::content::{Content, bytes_of};
use cmd_kit::Outcome;
use show_why::{WhyNames, why_files};
use std::alloc::Global;
use std::process::Abort;
use std::test::Fail;
use vm_field::Memory;
use vm_io::MemShelf;

/// A source `p` with a kernel `k` or with none, and what is told of it: the number of the status, and the lines.
pub type Row = (Content, Option<Content>, u8, &'static str);

/// Fails at the first row that is not so.
pub fn all_hold(rt: &(impl Abort + AllocGlobal), rows: &[Row]) -> Result<(), Fail> {
    for row in rows {
        let holds = holds(rt.alloc(), row)?;
        assert!(rt; holds, "{}", row.3);
    }
    Ok(())
}

fn holds(alloc: Global, row: &Row) -> Result<bool, Memory> {
    let (source, kernel, number, told) = row;
    let mut shelf = MemShelf::new(alloc);
    put(alloc, &mut shelf, "p", source)?;
    if let Some(kernel) = kernel {
        put(alloc, &mut shelf, "k", kernel)?;
    }
    let names = WhyNames {
        source: "p",
        kernel: if kernel.is_some() { Some("k") } else { None },
    };
    match why_files(alloc, &mut shelf, names) {
        Outcome::Ends(answer) => {
            Ok(answer.status.number() == *number && answer.line.as_slice() == told.as_bytes())
        }
        Outcome::Memory => Err(Memory::Memory),
    }
}

fn put(alloc: Global, shelf: &mut MemShelf, name: &str, content: &Content) -> Result<(), Memory> {
    match content {
        Content::Missing => Ok(()),
        content => shelf.put(name, bytes_of(alloc, content)?.as_slice()),
    }
}
