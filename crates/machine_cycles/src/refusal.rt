ghost use Rattle.std.specs.Prelude.{◌≡◌};
ghost use Rattle.machine_cycles.specs.Stops.{stop_at};

use op_steps::StepStop;
use thiserror::Error;
use vm_field::Memory;
use vm_ops::Cause;

/// Why a run did not come to its end.
#[derive(Clone, Copy, Debug, PartialEq, Eq, Error)]
pub enum Stop {
    /// The cycle at this clock traps.
    #[error("trap at clock {clock}")]
    Trap { clock: u32, cause: Cause },
    /// The program has not ended when the clock is the limit.
    #[error("out of cycles")]
    OutOfCycles,
    /// The system gave no memory.
    #[error("out of memory")]
    Memory,
}

impl From<Memory> for Stop {
    ghost use Rattle.std.specs.Prelude.{◌≡◌};
    ghost use Rattle.machine_cycles.specs.declared.refusal.Stop.TheVariants.{Memory};

    ghost from_gives = { λ _ e. e ≡ Memory };

    fn from(_error: Memory) -> Stop {
        Stop::Memory
    }
}

/// What a run stops with where the cycle at this clock stops.
pub(crate) fn stop_at(clock: u32, stop: StepStop) -> Stop
    ensures { result ≡ stop_at clock stop }
{
    match stop {
        StepStop::Trap(cause) => Stop::Trap { clock, cause },
        StepStop::Memory => Stop::Memory,
    }
}
