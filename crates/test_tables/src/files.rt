ghost use Rattle.std.specs.Prelude.{◌<◌};

use air_kit::Trace;
use std::alloc::Global;
use std::test::Fail;
use table_file::{FileCause, FileError, TableReader, decode, encode, types_cross};
use vm_field::Bytes;
use vm_io::Taker;

// `MDTB`, the version, and counts of 4, 42 and 8 rows; the other tables have none.
const HEAD: [u8; 36] =
    *b"MDTB\x02\0\0\0\x04\0\0\0\x2a\0\0\0\x08\0\0\0\0\0\0\0\0\0\0\0\0\0\0\0\0\0\0\0";

// The same with the version 0.
const OLD_HEAD: [u8; 36] =
    *b"MDTB\0\0\0\0\x04\0\0\0\x2a\0\0\0\x08\0\0\0\0\0\0\0\0\0\0\0\0\0\0\0\0\0\0\0";

// With the first version, which is read too.
const FIRST_HEAD: [u8; 36] =
    *b"MDTB\x01\0\0\0\x04\0\0\0\x2a\0\0\0\x08\0\0\0\0\0\0\0\0\0\0\0\0\0\0\0\0\0\0\0";

// With the version 3.
const NEXT_HEAD: [u8; 36] =
    *b"MDTB\x03\0\0\0\x04\0\0\0\x2a\0\0\0\x08\0\0\0\0\0\0\0\0\0\0\0\0\0\0\0\0\0\0\0";

// With the first version, and 2^19 cells left, as many as it may have.
const FIRST_MOST_HEAD: [u8; 36] =
    *b"MDTB\x01\0\0\0\x04\0\0\0\x2a\0\0\0\x08\0\0\0\0\0\0\0\0\0\0\0\0\0\0\0\0\0\x08\0";

// With one more.
const FIRST_FULL_HEAD: [u8; 36] =
    *b"MDTB\x01\0\0\0\x04\0\0\0\x2a\0\0\0\x08\0\0\0\0\0\0\0\0\0\0\0\0\0\0\0\x01\0\x08\0";

// With as many, and not the first version, which may have them.
const LEFT_HEAD: [u8; 36] =
    *b"MDTB\x02\0\0\0\x04\0\0\0\x2a\0\0\0\x08\0\0\0\0\0\0\0\0\0\0\0\0\0\0\0\x01\0\x08\0";

// With one cell left more than that may have.
const FULL_LEFT_HEAD: [u8; 36] =
    *b"MDTB\x02\0\0\0\x04\0\0\0\x2a\0\0\0\x08\0\0\0\0\0\0\0\0\0\0\0\0\0\0\0\x01\0\x10\0";

// With two bitwise operations and three accesses of memory.
const LONG_HEAD: [u8; 36] =
    *b"MDTB\x02\0\0\0\x04\0\0\0\x2a\0\0\0\x08\0\0\0\x10\0\0\0\x03\0\0\0\0\0\0\0\0\0\0\0";

// With nine rows of bitwise operations.
const PART_HEAD: [u8; 36] =
    *b"MDTB\x02\0\0\0\x04\0\0\0\x2a\0\0\0\x08\0\0\0\x09\0\0\0\0\0\0\0\0\0\0\0\0\0\0\0";

// With one access more than memory may have.
const FULL_HEAD: [u8; 36] =
    *b"MDTB\x02\0\0\0\x04\0\0\0\x2a\0\0\0\x08\0\0\0\0\0\0\0\x01\0\x08\0\0\0\0\0\0\0\0\0";

// Where the last element of the file with the first of these heads begins.
const LAST: usize = 3740;

// A head, this element at its place, and else zeros, so that the file has this length.
struct Case {
    length: usize,
    head: [u8; 36],
    last: [u8; 8],
    answer: Result<usize, FileError>,
}

// A case is a line: the length, the head, the last element where it is not 0, and how many rows the main table has, or what is wrong.
macro_rules! cases {
    ($($length:literal $head:ident $([$($byte:literal)*])? => $answer:ident $number:literal;)*) => {
        [$(Case {
            length: $length,
            head: $head,
            last: cases!(@last $($($byte)*)?),
            answer: cases!(@answer $answer $number),
        }),*]
    };
    (@last) => {
        [0; 8]
    };
    (@last $($byte:literal)*) => {
        [$($byte),*]
    };
    (@answer rows $rows:literal) => {
        Ok($rows)
    };
    (@answer $cause:ident $offset:literal) => {
        Err(FileError::Bad {
            offset: $offset,
            cause: FileCause::$cause,
        })
    };
}

static CASES: [Case; 15] = cases! {
    3748 HEAD => rows 4;
    3747 HEAD => Ended 3740;
    3748 HEAD [1 0 0 0 255 255 255 255] => Element 3740;
    3749 HEAD => Extra 3748;
    0 HEAD => Ended 0;
    3748 OLD_HEAD => Version 4;
    5620 LONG_HEAD => rows 4;
    3748 PART_HEAD => Count 20;
    3748 FULL_HEAD => Count 24;
    3748 FIRST_HEAD => rows 4;
    3748 NEXT_HEAD => Version 4;
    3748 FIRST_MOST_HEAD => Ended 3748;
    3748 FIRST_FULL_HEAD => Count 32;
    3748 LEFT_HEAD => Ended 3748;
    3748 FULL_LEFT_HEAD => Count 32;
};

fn byte_of(case: &Case, i: usize) -> u8 {
    if i < case.head.len() {
        case.head[i]
    } else if LAST <= i && i < LAST + 8 {
        case.last[i - LAST]
    } else {
        0
    }
}

fn file(alloc: Global, case: &Case) -> Result<Bytes, FileError> {
    let mut bytes = Bytes::new(alloc);
    for i in 0..case.length {
        bytes.push(byte_of(case, i))?;
    }
    Ok(bytes)
}

// The trace of bytes that come in pieces of this size.
fn read(alloc: Global, bytes: &[u8], size: usize) -> Result<Trace, FileError>
    requires { 0 < size }
{
    let mut reader = TableReader::new(alloc);
    for piece in bytes.chunks(size) {
        reader.take_piece(piece);
    }
    reader.finish()
}

fn main_rows(alloc: Global, case: &Case, size: usize) -> Result<usize, FileError>
    requires { 0 < size }
{
    let trace = read(alloc, file(alloc, case)?.as_slice(), size)?;
    Ok(trace.main.rows())
}

fn all_answer(alloc: Global, cases: &[Case], size: usize) -> bool
    requires { 0 < size }
{
    for case in cases {
        if main_rows(alloc, case, size) != case.answer {
            return false;
        }
    }
    true
}

// Whether the trace of a file is written as the other one.
fn is_written_as(alloc: Global, case: &Case, other: &Case) -> Result<bool, FileError> {
    let trace = decode(alloc, file(alloc, case)?.as_slice())?;
    Ok(encode(alloc, &trace)? == file(alloc, other)?)
}

// Where a front of this many bytes ends: behind whole numbers of four bytes in the head, and behind whole elements after it.
fn end_of(length: usize) -> usize {
    if length < HEAD.len() {
        length / 4 * 4
    } else {
        HEAD.len() + (length - HEAD.len()) / 8 * 8
    }
}

// Whether each front of a file is refused where it ends.
fn fronts_end(alloc: Global, case: &Case, size: usize) -> Result<bool, FileError>
    requires { 0 < size }
{
    let bytes = file(alloc, case)?;
    let all = bytes.as_slice();
    for length in 0..all.len() {
        let ended = FileError::Bad {
            offset: end_of(length) as u64,
            cause: FileCause::Ended,
        };
        match read(alloc, &all[..length], size) {
            Err(error) if error == ended => {}
            _ => return Ok(false),
        }
    }
    Ok(true)
}

#[test]
fn each_front_of_a_file_ends(rt: HostRuntime) -> Result<(), Fail> {
    assert_eq!(rt; fronts_end(rt.alloc(), &CASES[0], 4096), Ok(true));
    assert_eq!(rt; fronts_end(rt.alloc(), &CASES[6], 100), Ok(true));
    Ok(())
}

#[test]
fn reads_files(rt: HostRuntime) -> Result<(), Fail> {
    types_cross();
    assert!(rt; all_answer(rt.alloc(), &CASES, 7));
    assert!(rt; all_answer(rt.alloc(), &CASES, 4096));
    Ok(())
}

#[test]
fn writes_what_it_reads(rt: HostRuntime) -> Result<(), Fail> {
    for (case, other) in [(0, 0), (6, 6), (9, 0)] {
        assert_eq!(rt;
            is_written_as(rt.alloc(), &CASES[case], &CASES[other]),
            Ok(true)
        );
    }
    Ok(())
}
