ghost use Rattle.std.specs.Prelude.{◌≡◌, ◌↔◌, [], ◌∷◌, ◌++◌, OnOk, OnErr, IsOk, IsTrue, IsErrOf};
ghost use Rattle.std.specs.Option.{option_copied};
ghost use Rattle.std.specs.FinMap as map;
ghost use Rattle.vm_io.specs.Count.{Rose, one_more};
ghost use Rattle.vm_io.specs.Calls.{IsDue};
ghost use Rattle.vm_io.specs.Shelf.{ReadStep, TakenStep, WriteStep};

use crate::calls::Calls;
use crate::gathering::gather;
use crate::kept_name::KeptName;
use crate::pieces::Pieces;
use crate::shelf::{ReadStop, Shelf, WriteStop};
use crate::taker::Taker;
use std::alloc::Global;
use std::collections::BTreeMap;
use std::marker::Model;
use vm_field::{Bytes, Memory};

/// Files held in memory, and calls that fail when they are told to.
///
/// It tells its files and the name that failed last. The calls of `read` and `write` are counted
/// together, from 1; `put` and `get` are no such calls.
#[derive(Drop)]
pub struct MemShelf {
    alloc: Global,
    files: BTreeMap<String, Bytes>,
    read_faults: u64,
    write_faults: u64,
    failed_name: KeptName,
    calls: Calls,
}

impl Model for MemShelf {
    ghost use Rattle.vm_io.specs.MemShelf.{HeldFiles, held_code, files_of};

    ghost Value = { HeldFiles };

    ghost coded = { held_code };

    ghost view = { λ a. record {
      files = files_of a.files.entries;
      read_faults = a.read_faults;
      write_faults = a.write_faults;
      failed_name = a.failed_name;
      calls = a.calls;
    } };
}

impl MemShelf {
    ghost use Rattle.vm_io.specs.MemShelf.{no_files, put};

    /// A shelf with no files. It allocates nothing.
    pub fn new(alloc: Global) -> MemShelf
        ensures empty { result ≡ no_files }
    {
        MemShelf {
            alloc,
            files: BTreeMap::new(alloc),
            read_faults: 0,
            write_faults: 0,
            failed_name: KeptName::new(),
            calls: Calls::new(alloc),
        }
    }

    /// Puts these bytes under the name, which is no call that is counted. At `Memory` the shelf is
    /// as before.
    pub fn put(&mut self, name: &str, bytes: &[u8]) -> Result<(), Memory>
        ensures ok { OnOk result (self.new ≡ put self.old name.now bytes.now) }
        ensures err { OnErr result (self.new ≡ self.old) }
    {
        self.hold(self.alloc, name, bytes)
    }

    /// Lets the call of this number fail. At `Memory` the shelf is as before.
    pub fn fail(&mut self, call: u64) -> Result<(), Memory>
        ensures ok { OnOk result (self.new ≡ record self.old {
          calls = record self.old.calls { failing = self.old.calls.failing ++ call ∷ [] };
        }) }
        ensures err { OnErr result (self.new ≡ self.old) }
    {
        self.calls.fail(call)
    }

    /// The file under the name, or `None` exactly where there is none. It is no call that is
    /// counted.
    #[tactic(auto, using(crate::proofs::HeldLemmas::held_steps))]
    pub fn get(&self, name: &str) -> Option<&[u8]>
        ensures file { option_copied result ≡ map.get self.now.files name.now }
    {
        self.files.get(name).map(|bytes| bytes.as_slice())
    }
}

impl MemShelf {
    ghost use Rattle.vm_io.specs.MemShelf.{put, counted, with_read_fault, with_write_fault};

    // As `put`, with memory of this allocator.
    #[tactic(auto, using(crate::proofs::HeldLemmas::held_steps))]
    fn hold(&mut self, alloc: Global, name: &str, bytes: &[u8]) -> Result<(), Memory>
        ensures ok { OnOk result (self.new ≡ put self.old name.now bytes.now) }
        ensures err { OnErr result (self.new ≡ self.old) }
    {
        let key = String::from_str(alloc, name)?;
        let copy = Bytes::copied(alloc, bytes)?;
        self.files.insert(key, copy)?;
        Ok(())
    }

    // Counts the call that begins, and tells whether it is to fail.
    fn begin(&mut self) -> bool
        ensures due { IsTrue result ↔ IsDue self.old.calls }
        ensures counted { self.new ≡ counted self.old }
    {
        self.calls.begin()
    }

    fn count_read_fault(&mut self, name: &str)
        ensures fault { self.new ≡ with_read_fault self.old name.now }
        ensures rose { Rose self.old.read_faults self.new.read_faults }
    {
        self.read_faults = self.read_faults.saturating_add(1);
        self.failed_name.keep(name);
    }

    fn count_write_fault(&mut self, name: &str)
        ensures fault { self.new ≡ with_write_fault self.old name.now }
        ensures rose { Rose self.old.write_faults self.new.write_faults }
    {
        self.write_faults = self.write_faults.saturating_add(1);
        self.failed_name.keep(name);
    }
}

impl Shelf for MemShelf {
    ghost use Rattle.vm_io.specs.MemShelf.{told, after_read, after_pieces, after_write};

    ghost state = { told };

    /// It answers `Failed` exactly where the call's number is among those that are to fail.
    fn read(&mut self, alloc: Global, name: &str, max: u64) -> Result<Bytes, ReadStop>
        ensures step { ReadStep (told self.old) (told self.new) name.now max result }
        ensures failing { IsErrOf result ReadStop.Failed ↔ IsDue self.old.calls }
        ensures after { self.new ≡ after_read self.old name.now result }
    {
        if self.begin() {
            self.count_read_fault(name);
            return Err(ReadStop::Failed);
        }
        let Some(file) = self.get(name) else {
            return Err(ReadStop::Missing);
        };
        if max < file.len() as u64 {
            return Err(ReadStop::TooLong);
        }
        match Bytes::copied(alloc, file) {
            Ok(bytes) => Ok(bytes),
            Err(_) => Err(ReadStop::Memory),
        }
    }

    /// As `read`. The file is one piece.
    fn read_pieces<T: Taker>(&mut self, name: &str, max: u64, taker: &mut T) -> Result<(), ReadStop>
        requires fresh { T.took taker.old [] }
        ensures step { TakenStep (told self.old) (told self.new) name.now max (T.took taker.new) result }
        ensures failing { IsErrOf result ReadStop.Failed ↔ IsDue self.old.calls }
        ensures after { self.new ≡ after_pieces self.old name.now result }
    {
        match self.read(self.alloc, name, max) {
            Ok(bytes) => {
                taker.take_piece(bytes.as_slice());
                Ok(())
            }
            Err(stop) => Err(stop),
        }
    }

    /// It answers `Failed` exactly where the call's number is among those that are to fail, unless
    /// memory is refused. The first half of the bytes then stands under the name.
    fn write(&mut self, alloc: Global, name: &str, bytes: &[u8]) -> Result<(), WriteStop>
        ensures step { WriteStep (told self.old) (told self.new) name.now bytes.now result }
        ensures failing { IsErrOf result WriteStop.Failed → IsDue self.old.calls }
        ensures not_failing { IsOk result → ¬ IsDue self.old.calls }
        ensures after { self.new ≡ after_write self.old name.now bytes.now result }
    {
        let is_due = self.begin();
        let front = if is_due {
            &bytes[..bytes.len() / 2]
        } else {
            bytes
        };
        if self.hold(alloc, name, front).is_err() {
            return Err(WriteStop::Memory);
        }
        if is_due {
            self.count_write_fault(name);
            return Err(WriteStop::Failed);
        }
        Ok(())
    }
    /// As `write`, of all that the pieces have left.
    fn write_pieces<P: Pieces>(
        &mut self,
        alloc: Global,
        name: &str,
        pieces: &mut P,
    ) -> Result<(), WriteStop>
        ensures step { WriteStep (told self.old) (told self.new) name.now (P.rest pieces.old) result }
        ensures failing { IsErrOf result WriteStop.Failed → IsDue self.old.calls }
        ensures not_failing { IsOk result → ¬ IsDue self.old.calls }
        ensures after { self.new ≡ after_write self.old name.now (P.rest pieces.old) result }
    {
        match gather(alloc, pieces) {
            Ok(bytes) => self.write(alloc, name, bytes.as_slice()),
            Err(_) => {
                self.begin();
                Err(WriteStop::Memory)
            }
        }
    }
}
