ghost use Rattle.std.specs.Prelude.{◌≡◌, ◌∷◌, [], ◌++◌, OnOk, OnErr, IsOk, IsErrOf};
ghost use Rattle.vm_io.specs.Calls.{IsDue};
ghost use Rattle.vm_io.specs.Sink.{SinkStep};

use crate::calls::Calls;
use crate::sink::{Sink, SinkStop};
use std::alloc::Global;
use std::marker::Model;
use vm_field::{Bytes, Memory};

/// Output held in memory, and writes that fail when they are told to.
///
/// It tells what it took. Its writes are counted from 1.
#[derive(Drop)]
pub struct MemSink {
    taken: Bytes,
    faults: u64,
    calls: Calls,
}

impl Model for MemSink {
    ghost use Rattle.vm_io.specs.MemSink.{HeldOutput};

    ghost Value = { HeldOutput };

    ghost view = { λ a. record { taken = a.taken; faults = a.faults; calls = a.calls } };
}

impl MemSink {
    ghost use Rattle.vm_io.specs.MemSink.{no_output};

    /// A sink that took nothing. It allocates nothing.
    pub fn new(alloc: Global) -> MemSink
        ensures empty { result ≡ no_output }
    {
        MemSink {
            taken: Bytes::new(alloc),
            faults: 0,
            calls: Calls::new(alloc),
        }
    }

    /// Lets the write of this number fail. At `Memory` the sink is as before.
    pub fn fail(&mut self, call: u64) -> Result<(), Memory>
        ensures ok { OnOk result (self.new ≡ record self.old {
          calls = record self.old.calls { failing = self.old.calls.failing ++ call ∷ [] };
        }) }
        ensures err { OnErr result (self.new ≡ self.old) }
    {
        self.calls.fail(call)
    }

    /// The bytes that were taken so far.
    pub fn taken(&self) -> &[u8]
        ensures bytes { result.now ≡ self.now.taken }
    {
        self.taken.as_slice()
    }
}

impl Sink for MemSink {
    ghost use Rattle.vm_io.specs.MemSink.{told, after_write};

    ghost state = { told };

    /// It answers `Failed` exactly where the write's number is among those that are to fail, unless
    /// memory is refused. The first half of the piece is then taken.
    fn write(&mut self, _alloc: Global, bytes: &[u8]) -> Result<(), SinkStop>
        ensures step { SinkStep (told self.old) (told self.new) bytes.now result }
        ensures failing { IsErrOf result SinkStop.Failed → IsDue self.old.calls }
        ensures not_failing { IsOk result → ¬ IsDue self.old.calls }
        ensures after { self.new ≡ after_write self.old bytes.now result }
    {
        let is_due = self.calls.begin();
        let front = if is_due {
            &bytes[..bytes.len() / 2]
        } else {
            bytes
        };
        if self.taken.append(front).is_err() {
            return Err(SinkStop::Memory);
        }
        if is_due {
            self.faults = self.faults.saturating_add(1);
            return Err(SinkStop::Failed);
        }
        Ok(())
    }
}
