ghost use Rattle.std.specs.Prelude.{◌≡◌, ◌+◌, ◌<◌, ◌≤◌, ◌++◌, ℕ, List, [], None, length, take, Err, IfOk, IfErr, IfSome};
ghost use Rattle.air_kit.specs.Traces.{HasCounts};
ghost use Rattle.table_file.specs.Fields.{GivesRead};
ghost use Rattle.table_file.specs.Files.{AreTables, trace_of};
ghost use Rattle.table_file.specs.Reading.{GoesFurther, ReadsBehind, HasRead, HasTaken, IsMissing, IsReady, wanted};

use crate::cause::FileError;
use crate::head::{HEAD_BYTES, read_head};
use crate::part_trace::PartTrace;
use air_kit::Trace;
use arrayvec::ArrayVec;
use std::alloc::Global;
use std::marker::Model;
use vm_io::Taker;

/// The trace that bytes read as. The first bad field decides; `Memory` comes only where memory is refused.
pub fn decode(alloc: Global, bytes: &[u8]) -> Result<Trace, FileError>
    ensures reads { GivesRead result (trace_of bytes.now) }
    ensures counts { IfOk result HasCounts }
    ensures tables { IfOk result AreTables }
{
    let mut reader = TableReader::new(alloc);
    reader.take_piece(bytes);
    reader.finish()
}

/// A table file that is read as its bytes come, in pieces of any length.
///
/// It holds the rows that it has read, and of the bytes no more than the front of one row.
#[derive(Drop)]
pub struct TableReader {
    alloc: Global,
    carried: ArrayVec<u8, 520>,
    // none before the head is whole
    part: Option<PartTrace>,
    // why no trace comes
    stop: Option<FileError>,
}

impl Model for TableReader {
    ghost use Rattle.std.specs.Prelude.{◌<◌, length, IfSome};
    ghost use Rattle.table_file.specs.Reading.{IsReady, Reader, wanted};

    ghost Value = { Reader };

    ghost view = { λ a. record { carried = a.carried.items; part = a.part; stop = a.stop } };

    ghost invariant = { λ a. IfSome a.part IsReady × (length a.carried.items < wanted a.part) };
}

impl TableReader {
    /// No bytes were taken.
    pub fn new(alloc: Global) -> TableReader
        ensures { HasTaken result [] }
    {
        TableReader {
            alloc,
            carried: ArrayVec::new(),
            part: None,
            stop: None,
        }
    }

    /// The trace that the bytes read as, where no more come. The first bad field decides; `Memory` comes only where memory is refused.
    pub fn finish(self) -> Result<Trace, FileError>
        ensures reads { (bytes : List ℕ) → HasTaken self bytes → GivesRead result (trace_of bytes) }
        ensures counts { (bytes : List ℕ) → HasTaken self bytes → IfOk result HasCounts }
        ensures tables { (bytes : List ℕ) → HasTaken self bytes → IfOk result AreTables }
    {
        self.answer()
    }
}

impl TableReader {
    // The trace, or why none comes.
    fn answer(self) -> Result<Trace, FileError>
        ensures { (bytes : List ℕ) → HasTaken self bytes → GivesRead result (trace_of bytes) }
    {
        let TableReader {
            alloc: _,
            carried,
            part,
            stop,
        } = self;
        match (stop, part) {
            (Some(error), _) => Err(error),
            (None, Some(part)) => part.finish(carried.as_slice()),
            (None, None) => match read_head(carried.as_slice()) {
                Ok(_) => unreachable!(),
                Err(error) => Err(error),
            },
        }
    }
}

impl TableReader {
    // How many bytes the head or the next row has.
    fn wanted(&self) -> usize
        ensures { result ≡ wanted self.now.part }
    {
        match &self.part {
            None => HEAD_BYTES,
            Some(part) => part.next_row(),
        }
    }

    // How many bytes are missing of what is carried; none where nothing is.
    fn missing(&self) -> usize
        ensures { IsMissing self.now result }
    {
        if self.carried.is_empty() {
            0
        } else {
            self.wanted() - self.carried.len()
        }
    }

    // Keeps the front of a head or of a row.
    fn carry(&mut self, piece: &[u8])
        requires { length self.old.carried + length piece.now < wanted self.old.part }
        ensures { (before : List ℕ) → HasTaken self.old before → HasTaken self.new (before ++ piece.now) }
    {
        self.carried.try_extend_from_slice(piece).unwrap();
    }

    // Reads the head or the row whose front is carried, where one is.
    #[tactic(auto, using(crate::proofs::Readers::completed, crate::proofs::Readers::nothing_missing))]
    fn complete(&mut self, front: &[u8])
        requires going { self.old.stop ≡ None }
        requires missing { IsMissing self.old (length front.now) }
        ensures empty { self.new.carried ≡ [] }
        ensures taken { (before : List ℕ) → HasTaken self.old before → HasTaken self.new (before ++ front.now) }
    {
        if self.carried.is_empty() {
            return;
        }
        self.carried.try_extend_from_slice(front).unwrap();
        go_on(
            self.alloc,
            &mut self.part,
            &mut self.stop,
            self.carried.as_slice(),
        );
        self.carried.clear();
    }

    // Reads what stands whole in a piece, and keeps the rest.
    fn take_whole(&mut self, piece: &[u8])
        requires empty { self.old.carried ≡ [] }
        ensures taken { (before : List ℕ) → HasTaken self.old before → HasTaken self.new (before ++ piece.now) }
    {
        let mut at = 0;
        while self.stop.is_none() && self.wanted() <= piece.len() - at {
            at += go_on(self.alloc, &mut self.part, &mut self.stop, &piece[at..]);
        }
        if self.stop.is_none() {
            self.carry(&piece[at..]);
        }
    }
}

// Reads the head, or rows of one table, and answers how many bytes they have: all, where the reading stops.
#[tactic(auto, using(crate::proofs::Readers::stopped))]
fn go_on(
    alloc: Global,
    part: &mut Option<PartTrace>,
    stop: &mut Option<FileError>,
    bytes: &[u8],
) -> usize
    requires going { stop.old ≡ None }
    requires ready { IfSome part.old IsReady }
    requires enough { wanted part.old ≤ length bytes.now }
    ensures ready { IfSome part.new IsReady }
    ensures some { 1 ≤ result }
    ensures whole { wanted part.old ≤ result }
    ensures within { result ≤ length bytes.now }
    ensures read { (done : List ℕ) → ReadsBehind part.old done → HasRead stop.new part.new (done ++ take result bytes.now) }
{
    match advance(alloc, part, bytes) {
        Ok(count) => count,
        Err(error) => {
            *part = None;
            *stop = Some(error);
            bytes.len()
        }
    }
}

// Reads the head, or rows of one table, and answers how many bytes they have.
#[tactic(auto, using(crate::proofs::Readers::rows_go, crate::proofs::Readers::rows_stop))]
fn advance(alloc: Global, part: &mut Option<PartTrace>, bytes: &[u8]) -> Result<usize, FileError>
    requires ready { IfSome part.old IsReady }
    requires enough { wanted part.old ≤ length bytes.now }
    ensures ok { IfOk result (λ count. GoesFurther part.old part.new bytes.now count) }
    ensures err { IfErr result (λ error. (done more : List ℕ) → ReadsBehind part.old done
        → GivesRead (Err error) (trace_of (done ++ (bytes.now ++ more)))) }
{
    match part {
        Some(part) => part.take_rows(bytes),
        None => begin(alloc, part, bytes),
    }
}

// Reads the head.
#[tactic(auto, using(crate::proofs::Readers::head_goes, crate::proofs::Readers::head_stops))]
fn begin(alloc: Global, part: &mut Option<PartTrace>, bytes: &[u8]) -> Result<usize, FileError>
    requires none { part.old ≡ None }
    requires enough { 36 ≤ length bytes.now }
    ensures ok { IfOk result (λ count. GoesFurther part.old part.new bytes.now count) }
    ensures err { IfErr result (λ error. (done more : List ℕ) → ReadsBehind part.old done
        → GivesRead (Err error) (trace_of (done ++ (bytes.now ++ more)))) }
{
    match read_head(&bytes[..HEAD_BYTES]) {
        Ok(counts) => {
            *part = Some(PartTrace::new(alloc, counts));
            Ok(HEAD_BYTES)
        }
        Err(error) => Err(error),
    }
}

impl Taker for TableReader {
    ghost took = { HasTaken };

    fn take_piece(&mut self, piece: &[u8]) {
        if self.stop.is_some() {
            self.carried.clear();
            return;
        }
        let missing = self.missing();
        if piece.len() < missing {
            self.carry(piece);
            return;
        }
        self.complete(&piece[..missing]);
        self.take_whole(&piece[missing..]);
    }
}
