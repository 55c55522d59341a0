use std::alloc::Global;
use vm_field::Memory;

/// What a file holds.
pub enum Content {
    /// No file stands there.
    Missing,
    /// This text.
    Text(&'static str),
    /// `begin`, and so many lines `while.true` behind it.
    Loops(usize),
    /// So many exported procedures of other names, one a line.
    Exports(usize),
    /// Procedures `a` to `e`, each of so many loops in one another and inside of them a use of the next procedure, and a program
    /// that is empty.
    Nested(usize),
}

/// The bytes of a file that is not missing.
pub fn bytes_of(alloc: Global, content: &Content) -> Result<Vec<u8>, Memory> {
    let mut bytes = Vec::new(alloc);
    match content {
        Content::Missing => {}
        Content::Text(text) => bytes.extend_from_slice(text.as_bytes())?,
        Content::Loops(count) => {
            bytes.extend_from_slice(b"begin")?;
            push_times(&mut bytes, b"\nwhile.true", *count)?;
        }
        Content::Exports(count) => push_exports(&mut bytes, *count)?,
        Content::Nested(count) => {
            for name in b"abcde" {
                push_nested(&mut bytes, *name, *count)?;
            }
            bytes.extend_from_slice(b"begin end")?;
        }
    }
    Ok(bytes)
}

fn push_times(bytes: &mut Vec<u8>, text: &[u8], count: usize) -> Result<(), Memory> {
    for _ in 0..count {
        bytes.extend_from_slice(text)?;
    }
    Ok(())
}

// A name is two letters from `a` to `p`.
fn push_exports(bytes: &mut Vec<u8>, count: usize) -> Result<(), Memory> {
    let letters = b"abcdefghijklmnop";
    for i in 0..count {
        bytes.extend_from_slice(b"export.")?;
        bytes.push(letters[i / 16 % 16])?;
        bytes.push(letters[i % 16])?;
        bytes.extend_from_slice(b" end\n")?;
    }
    Ok(())
}

fn push_nested(bytes: &mut Vec<u8>, name: u8, count: usize) -> Result<(), Memory> {
    bytes.extend_from_slice(b"proc.")?;
    bytes.push(name)?;
    push_times(bytes, b"\nwhile.true", count)?;
    if name < b'e' {
        bytes.extend_from_slice(b"\nexec.")?;
        bytes.push(name + 1)?;
    }
    push_times(bytes, b"\nend", count)?;
    bytes.extend_from_slice(b"\nend\n")?;
    Ok(())
}
