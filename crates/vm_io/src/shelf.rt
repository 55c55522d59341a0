use crate::pieces::Pieces;
use crate::taker::Taker;
use std::alloc::Global;
use thiserror::Error;
use vm_field::Bytes;

/// Why a read gave no file.
#[derive(Clone, Copy, Debug, PartialEq, Eq, Error)]
pub enum ReadStop {
    /// There is no file of this name.
    #[error("there is no such file")]
    Missing,
    /// The file is longer than was asked for.
    #[error("the file is too long")]
    TooLong,
    /// The shelf failed, and counted it.
    #[error("the file could not be read")]
    Failed,
    /// Memory was refused.
    #[error("out of memory")]
    Memory,
}

/// Why a write did not write a whole file.
#[derive(Clone, Copy, Debug, PartialEq, Eq, Error)]
pub enum WriteStop {
    /// The shelf failed, and counted it.
    #[error("the file could not be written")]
    Failed,
    /// Memory was refused.
    #[error("out of memory")]
    Memory,
}

/// Files under names.
///
/// A shelf is seen as its files, two counts of faults and the name that failed last. It may leave
/// the files and the name untold. The counts never fall, and stop at 2^64 - 1.
pub trait Shelf {
    ghost use Rattle.std.specs.Prelude.{[]};
    ghost use Rattle.vm_io.specs.Shelf.{ShelfState, ReadStep, TakenStep, WriteStep};

    ghost state: { Self → ShelfState };

    /// The bytes of a file, of which there are at most `max`.
    ///
    /// `Missing` comes exactly where there is no such file, and `TooLong` exactly where it has more
    /// than `max` bytes, unless the call fails or memory is refused. Only `Failed` changes anything:
    /// it counts a read fault, and keeps the first 200 bytes of the name.
    fn read(&mut self, alloc: Global, name: &str, max: u64) -> Result<Bytes, ReadStop>
        ensures step { ReadStep (state self.old) (state self.new) name.now max result };

    /// Gives the bytes of a file to a taker that has taken nothing yet, as `read` does. They need not be in memory at once.
    fn read_pieces<T: Taker>(&mut self, name: &str, max: u64, taker: &mut T) -> Result<(), ReadStop>
        requires fresh { T.took taker.old [] }
        ensures step { TakenStep (state self.old) (state self.new) name.now max (T.took taker.new) result };

    /// Puts these bytes under the name, in place of any that stood there. Other files stay.
    ///
    /// At `Failed` a front of the bytes stands under the name, a write fault is counted, and the
    /// first 200 bytes of the name are kept. At `Memory` nothing has changed.
    fn write(&mut self, alloc: Global, name: &str, bytes: &[u8]) -> Result<(), WriteStop>
        ensures step { WriteStep (state self.old) (state self.new) name.now bytes.now result };

    /// Puts all that the pieces have left under the name, as `write` does. At `Failed` they may have
    /// more left.
    fn write_pieces<P: Pieces>(
        &mut self,
        alloc: Global,
        name: &str,
        pieces: &mut P,
    ) -> Result<(), WriteStop>
        ensures step { WriteStep (state self.old) (state self.new) name.now (P.rest pieces.old) result };
}
