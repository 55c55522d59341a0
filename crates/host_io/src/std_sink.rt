ghost use Rattle.std.specs.Prelude.{◌≡◌, IsErrOf};
ghost use Rattle.vm_io.specs.Count.{one_more};
ghost use Rattle.vm_io.specs.Sink.{SinkStep};

use crate::whole::write_whole;
use std::alloc::Global;
use std::io;
use std::marker::Model;
use vm_io::{Sink, SinkStop};

/// The standard output. It counts what the system refuses, and tells nothing else.
#[derive(Drop)]
pub struct StdSink<'a, R> {
    rt: &'a R,
    faults: u64,
}

impl<'a, R> Model for StdSink<'a, R> {
    ghost use Rattle.std.specs.Prelude.{ℕ};

    ghost Value = { ℕ };

    ghost view = { λ a. a.faults };
}

impl<'a, R: Print> StdSink<'a, R> {
    /// The standard output, which has counted no fault.
    pub fn new(rt: &'a R) -> StdSink<'a, R>
        ensures none { result ≡ 0 }
    {
        StdSink { rt, faults: 0 }
    }
}

impl<'a, R: Print> Sink for StdSink<'a, R> {
    ghost use Rattle.host_io.specs.Folder.{untold_sink};

    ghost state = { untold_sink };

    /// `Failed` is any fault of the system, and a write that takes nothing. It never answers `Memory`.
    fn write(&mut self, _alloc: Global, bytes: &[u8]) -> Result<(), SinkStop>
        ensures step { SinkStep (untold_sink self.old) (untold_sink self.new) bytes.now result }
        ensures counted { IsErrOf result SinkStop.Failed → self.new ≡ one_more self.old }
        ensures memory { IsErrOf result SinkStop.Memory → ⊥ }
    {
        match write_whole(&mut io::writer(self.rt), bytes) {
            Ok(()) => Ok(()),
            Err(_) => {
                self.faults = self.faults.saturating_add(1);
                Err(SinkStop::Failed)
            }
        }
    }
}
