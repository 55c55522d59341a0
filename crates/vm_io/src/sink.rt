use std::alloc::Global;
use thiserror::Error;

/// Why a sink did not take a whole piece.
#[derive(Clone, Copy, Debug, PartialEq, Eq, Error)]
pub enum SinkStop {
    /// The sink failed, and counted it.
    #[error("the output could not be written")]
    Failed,
    /// Memory was refused.
    #[error("out of memory")]
    Memory,
}

/// What takes printed bytes.
///
/// A sink is seen as the bytes that it took so far, which it may leave untold, and a count of
/// faults, which never falls and stops at 2^64 - 1.
pub trait Sink {
    ghost use Rattle.vm_io.specs.Sink.{SinkState, SinkStep};

    ghost state: { Self → SinkState };

    /// Takes a piece behind what was taken before.
    ///
    /// At `Failed` a front of the piece was taken, and a fault is counted. At `Memory` nothing has
    /// changed.
    fn write(&mut self, alloc: Global, bytes: &[u8]) -> Result<(), SinkStop>
        ensures step { SinkStep (state self.old) (state self.new) bytes.now result };
}
