ghost use Rattle.std.specs.Prelude.{◌≡◌, ◌≢◌, ◌≤◌, ℕ, List, [], length, IfOk, OnOk, IsErrOf};
ghost use Rattle.vm_io.specs.Count.{Rose, one_more};
ghost use Rattle.vm_io.specs.Shelf.{ReadStep, TakenStep, WriteStep};

use crate::whole::{read_all, read_whole, write_all, write_whole};
use std::alloc::Global;
use std::marker::Model;
use std::rt::Files;
use std::{fs, io};
use vm_field::Bytes;
use vm_io::{Pieces, ReadStop, Shelf, Taker, WriteStop};

/// The files under the current folder. It counts what the system refuses, and tells nothing else.
#[derive(Drop)]
pub struct FolderShelf<'a, R> {
    rt: &'a R,
    read_faults: u64,
    write_faults: u64,
}

impl<'a, R> Model for FolderShelf<'a, R> {
    ghost use Rattle.host_io.specs.Folder.{FaultCounts};

    ghost Value = { FaultCounts };

    ghost view = { λ a. record { reads = a.read_faults; writes = a.write_faults } };
}

impl<'a, R: Files> FolderShelf<'a, R> {
    /// The shelf of the current folder, which has counted no fault.
    pub fn new(rt: &'a R) -> FolderShelf<'a, R>
        ensures none { result ≡ record { reads = 0; writes = 0 } }
    {
        FolderShelf {
            rt,
            read_faults: 0,
            write_faults: 0,
        }
    }

    fn count_read_fault(&mut self)
        ensures counted { self.new ≡ record self.old { reads = one_more self.old.reads } }
        ensures rose { Rose self.old.reads self.new.reads }
    {
        self.read_faults = self.read_faults.saturating_add(1);
    }
}

impl<'a, R: Files> Shelf for FolderShelf<'a, R> {
    ghost use Rattle.host_io.specs.Folder.{untold_shelf};

    ghost state = { untold_shelf };

    /// `Missing` is a name that the system does not find. `Failed` is any other fault of the system.
    /// It reads one byte more than `max` at most.
    fn read(&mut self, alloc: Global, name: &str, max: u64) -> Result<Bytes, ReadStop>
        ensures step { ReadStep (untold_shelf self.old) (untold_shelf self.new) name.now max result }
        ensures counted { IsErrOf result ReadStop.Failed → self.new.reads ≡ one_more self.old.reads }
    {
        match load(self.rt, alloc, name, max) {
            Err(ReadStop::Failed) => {
                self.count_read_fault();
                Err(ReadStop::Failed)
            }
            answer => answer,
        }
    }

    /// As `read`. It keeps no more than one piece in memory.
    fn read_pieces<T: Taker>(&mut self, name: &str, max: u64, taker: &mut T) -> Result<(), ReadStop>
        requires fresh { T.took taker.old [] }
        ensures step { TakenStep (untold_shelf self.old) (untold_shelf self.new) name.now max (T.took taker.new) result }
        ensures counted { IsErrOf result ReadStop.Failed → self.new.reads ≡ one_more self.old.reads }
    {
        match load_pieces(self.rt, name, max, taker) {
            Err(ReadStop::Failed) => {
                self.count_read_fault();
                Err(ReadStop::Failed)
            }
            answer => answer,
        }
    }

    /// `Failed` is any fault of the system, and a write that takes nothing. It never answers `Memory`.
    fn write(&mut self, _alloc: Global, name: &str, bytes: &[u8]) -> Result<(), WriteStop>
        ensures step { WriteStep (untold_shelf self.old) (untold_shelf self.new) name.now bytes.now result }
        ensures counted { IsErrOf result WriteStop.Failed → self.new.writes ≡ one_more self.old.writes }
        ensures memory { IsErrOf result WriteStop.Memory → ⊥ }
    {
        match save(self.rt, name, bytes) {
            Ok(()) => Ok(()),
            Err(_) => {
                self.write_faults = self.write_faults.saturating_add(1);
                Err(WriteStop::Failed)
            }
        }
    }

    /// `Failed` is any fault of the system, and a write that takes nothing. It keeps no more than one piece in memory, and
    /// takes none itself.
    fn write_pieces<P: Pieces>(
        &mut self,
        _alloc: Global,
        name: &str,
        pieces: &mut P,
    ) -> Result<(), WriteStop>
        ensures step { WriteStep (untold_shelf self.old) (untold_shelf self.new) name.now (P.rest pieces.old) result }
        ensures counted { IsErrOf result WriteStop.Failed → self.new.writes ≡ one_more self.old.writes }
        ensures memory { IsErrOf result WriteStop.Memory → ⊥ }
    {
        match save_pieces(self.rt, name, pieces) {
            Ok(()) => Ok(()),
            Err(_) => {
                self.write_faults = self.write_faults.saturating_add(1);
                Err(WriteStop::Failed)
            }
        }
    }
}

// Reads a file.
fn load<R: Files>(rt: &R, alloc: Global, name: &str, max: u64) -> Result<Bytes, ReadStop>
    ensures within { IfOk result (λ bytes. length bytes ≤ max) }
{
    match fs::open(rt, name) {
        Ok(mut file) => read_whole(alloc, &mut file, max),
        Err(error) if error.kind() == io::ErrorKind::NotFound => Err(ReadStop::Missing),
        Err(_) => Err(ReadStop::Failed),
    }
}

// Reads a file for a taker.
fn load_pieces<R: Files, T: Taker>(
    rt: &R,
    name: &str,
    max: u64,
    taker: &mut T,
) -> Result<(), ReadStop>
    requires fresh { T.took taker.old [] }
    ensures taken { OnOk result ((bytes : List ℕ) × (length bytes ≤ max) × T.took taker.new bytes) }
{
    match fs::open(rt, name) {
        Ok(mut file) => read_all(&mut file, max, taker),
        Err(error) if error.kind() == io::ErrorKind::NotFound => Err(ReadStop::Missing),
        Err(_) => Err(ReadStop::Failed),
    }
}

// Makes a file, or empties it, and writes it.
fn save<R: Files>(rt: &R, name: &str, bytes: &[u8]) -> io::Result<()> {
    let mut file = fs::create(rt, name)?;
    write_whole(&mut file, bytes)
}

// Makes a file, or empties it, and writes all pieces to it.
fn save_pieces<R: Files, P: Pieces>(rt: &R, name: &str, pieces: &mut P) -> io::Result<()> {
    let mut file = fs::create(rt, name)?;
    write_all(&mut file, pieces)
}
