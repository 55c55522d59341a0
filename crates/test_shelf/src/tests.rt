ghost use Rattle.std.specs.Prelude.{◌≡◌, ◌≤◌, [], false, IfOk};

use host_io::{FolderShelf, StdSink, read_all, read_whole, write_whole};
use std::alloc::Global;
use std::io::{Read, Write};
use std::test::Fail;
use std::{fs, io};
use vm_field::{Bytes, Memory};
use vm_io::{
    Gate, MemShelf, MemSink, OpenGate, Piece, Pieces, ReadStop, Shelf, Sink, SinkStop, Taker,
    WriteStop,
};

#[derive(Clone, Copy)]
enum Call {
    Read(&'static str, u64),
    ReadPieces(&'static str, u64),
    Write(&'static str, &'static str),
    WritePieces(&'static str, &'static str),
}

// A text that is given in pieces of at most two bytes.
#[derive(Drop)]
struct Pairs {
    left: &'static [u8],
}

impl Pieces for Pairs {
    ghost use Rattle.test_shelf.specs.declared.tests.Pairs.{Pairs};

    ghost rest = { λ p. p.left.now };

    fn next_piece(&mut self, room: &mut Piece) {
        let (first, left) = self.left.split_at(self.left.len().min(2));
        room.clear();
        room.try_extend_from_slice(first).unwrap();
        self.left = left;
    }
}

// A taker that keeps what it took.
#[derive(Drop)]
struct Kept {
    bytes: Bytes,
    is_refused: bool,
}

impl Kept {
    fn new(alloc: Global) -> Kept
        ensures { (result.is_refused ≡ false) × (result.bytes ≡ []) }
    {
        Kept {
            bytes: Bytes::new(alloc),
            is_refused: false,
        }
    }
}

impl Taker for Kept {
    ghost use Rattle.std.specs.Prelude.{◌≡◌, false};
    ghost use Rattle.test_shelf.specs.declared.tests.Kept.{Kept};

    ghost took = { λ k bytes. k.is_refused ≡ false → k.bytes ≡ bytes };

    fn take_piece(&mut self, piece: &[u8]) {
        if self.bytes.append(piece).is_err() {
            self.is_refused = true;
        }
    }
}

// What a call answers, as a text.
fn answer<F: Shelf>(alloc: Global, shelf: &mut F, call: &Call) -> Result<Bytes, Memory> {
    match call {
        Call::Read(name, max) => match shelf.read(alloc, name, *max) {
            Ok(bytes) => Ok(bytes),
            Err(stop) => stopped(alloc, stop),
        },
        Call::ReadPieces(name, max) => {
            let mut kept = Kept::new(alloc);
            match shelf.read_pieces(name, *max, &mut kept) {
                Ok(()) if kept.is_refused => Err(Memory::Memory),
                Ok(()) => Ok(kept.bytes),
                Err(stop) => stopped(alloc, stop),
            }
        }
        Call::Write(name, text) => told(alloc, shelf.write(alloc, name, text.as_bytes())),
        Call::WritePieces(name, text) => {
            let mut pieces = Pairs {
                left: text.as_bytes(),
            };
            told(alloc, shelf.write_pieces(alloc, name, &mut pieces))
        }
    }
}

fn stopped(alloc: Global, stop: ReadStop) -> Result<Bytes, Memory> {
    match stop {
        ReadStop::Missing => Bytes::copied(alloc, b"missing"),
        ReadStop::TooLong => Bytes::copied(alloc, b"too long"),
        ReadStop::Failed => Bytes::copied(alloc, b"failed"),
        ReadStop::Memory => Err(Memory::Memory),
    }
}

fn told(alloc: Global, written: Result<(), WriteStop>) -> Result<Bytes, Memory> {
    match written {
        Ok(()) => Bytes::copied(alloc, b"written"),
        Err(WriteStop::Failed) => Bytes::copied(alloc, b"failed"),
        Err(WriteStop::Memory) => Err(Memory::Memory),
    }
}

fn holds(shelf: &MemShelf, name: &str, text: &str) -> bool {
    shelf.get(name).is_some_and(|file| file == text.as_bytes())
}

fn print<K: Sink>(alloc: Global, sink: &mut K, text: &str) -> Result<(), SinkStop> {
    sink.write(alloc, text.as_bytes())
}

fn pass<G: Gate>(gate: &G) {
    gate.enter(0);
}

// A file `a`, and calls 2 and 4 that fail.
fn faulty_shelf(alloc: Global) -> Result<MemShelf, Memory> {
    let mut shelf = MemShelf::new(alloc);
    shelf.fail(2)?;
    shelf.fail(4)?;
    shelf.put("a", b"abcd")?;
    Ok(shelf)
}

#[test]
fn a_mem_shelf_fails_when_it_is_told_to(rt: HostRuntime) -> Result<(), Fail> {
    let mut shelf = faulty_shelf(rt.alloc())?;
    for (call, want) in [
        (Call::Read("a", 4), "abcd"),
        (Call::Read("a", 4), "failed"),
        (Call::Write("b", "whole"), "written"),
        (Call::Write("b", "front"), "failed"),
        (Call::Read("b", 2), "fr"),
        (Call::Read("b", 1), "too long"),
        (Call::Read("c", 1), "missing"),
        (Call::Write("a", ""), "written"),
        (Call::WritePieces("d", "whole"), "written"),
        (Call::ReadPieces("d", 5), "whole"),
        (Call::ReadPieces("d", 4), "too long"),
    ] {
        let told = answer(rt.alloc(), &mut shelf, &call)?;
        assert_eq!(rt; told.as_slice(), want.as_bytes());
    }
    assert!(rt; holds(&shelf, "a", "") && holds(&shelf, "b", "fr"));
    assert!(rt; shelf.get("c").is_none());
    Ok(())
}

#[test]
fn a_mem_sink_fails_when_it_is_told_to(rt: HostRuntime) -> Result<(), Fail> {
    let mut sink = MemSink::new(rt.alloc());
    sink.fail(2)?;
    for (text, want) in [
        ("ab", Ok(())),
        ("cdefg", Err(SinkStop::Failed)),
        ("h", Ok(())),
    ] {
        assert_eq!(rt; print(rt.alloc(), &mut sink, text), want);
    }
    assert_eq!(rt; sink.taken(), b"abcdh".as_slice());
    Ok(())
}

#[test]
fn a_folder_is_read_and_written(rt: HostRuntime) -> Result<(), Fail> {
    let mut shelf = FolderShelf::new(&rt);
    for (call, want) in [
        (Call::Read("vm_io-no-file", 5), "missing"),
        (Call::Write("vm_io-test-file", "first text"), "written"),
        (Call::Write("vm_io-test-file", "text"), "written"),
        (Call::Read("vm_io-test-file", 4), "text"),
        (Call::Read("vm_io-test-file", 3), "too long"),
        (
            Call::WritePieces("vm_io-test-file", "a longer text"),
            "written",
        ),
        (Call::ReadPieces("vm_io-test-file", 13), "a longer text"),
        (Call::ReadPieces("vm_io-test-file", 12), "too long"),
        (Call::ReadPieces("vm_io-no-file", 5), "missing"),
        (Call::ReadPieces(".", 3), "failed"),
        (Call::Read(".", 3), "failed"),
        (Call::Write("vm_io-no-folder/file", "text"), "failed"),
        (Call::WritePieces("vm_io-no-folder/file", "text"), "failed"),
    ] {
        let told = answer(rt.alloc(), &mut shelf, &call)?;
        assert_eq!(rt; told.as_slice(), want.as_bytes());
    }
    fs::remove_file(&rt, "vm_io-test-file")?;
    Ok(())
}

#[test]
fn the_output_is_written(rt: HostRuntime) {
    let mut sink = StdSink::new(&rt);
    assert_eq!(rt; print(rt.alloc(), &mut sink, "a line\n"), Ok(()));
    pass(&OpenGate);
}

// A stream that gives and takes a byte at a time, as long as it has room, and then gives and takes
// nothing, or fails.
#[derive(Drop)]
struct Stream {
    room: usize,
    fails: bool,
}

impl Stream {
    fn step(&mut self, wanted: usize) -> io::Result<usize>
        ensures within { IfOk result (λ n. n ≤ wanted) }
    {
        if self.room > 0 && wanted > 0 {
            self.room -= 1;
            return Ok(1);
        }
        if self.fails {
            return Err(io::Error::from(io::ErrorKind::Other));
        }
        Ok(0)
    }
}

impl Read for Stream {
    fn read(&mut self, buf: &mut [u8]) -> io::Result<usize> {
        self.step(buf.len())
    }
}

impl Write for Stream {
    fn write(&mut self, buf: &[u8]) -> io::Result<usize> {
        self.step(buf.len())
    }

    fn flush(&mut self) -> io::Result<()> {
        Ok(())
    }
}

#[test]
fn a_stream_that_stops_is_a_fault(rt: HostRuntime) {
    for (room, fails, max, want) in [
        (3, false, 3, Ok(3)),
        (3, false, 2, Err(ReadStop::TooLong)),
        (3, true, 2, Err(ReadStop::TooLong)),
        (3, true, 3, Err(ReadStop::Failed)),
    ] {
        let mut stream = Stream { room, fails };
        let read = read_whole(rt.alloc(), &mut stream, max).map(|bytes| bytes.as_slice().len());
        assert_eq!(rt; read, want);
        let mut stream = Stream { room, fails };
        let taken = read_all(&mut stream, max, &mut Kept::new(rt.alloc()));
        assert_eq!(rt; taken, want.map(|_| ()));
    }
    for (room, fails, want) in [
        (4, false, true),
        (4, true, true),
        (3, false, false),
        (3, true, false),
    ] {
        let mut stream = Stream { room, fails };
        assert_eq!(rt; write_whole(&mut stream, b"text").is_ok(), want);
    }
}
