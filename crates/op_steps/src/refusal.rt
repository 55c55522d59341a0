use thiserror::Error;
use vm_field::Memory;
use vm_ops::Cause;

/// Why a step was not made.
#[derive(Clone, Copy, Debug, PartialEq, Eq, Error)]
pub enum StepStop {
    /// The operation traps.
    #[error("trap")]
    Trap(Cause),
    /// The system gave no memory.
    #[error("out of memory")]
    Memory,
}

impl From<Memory> for StepStop {
    ghost use Rattle.std.specs.Prelude.{◌≡◌};
    ghost use Rattle.op_steps.specs.declared.refusal.StepStop.TheVariants.{Memory};

    ghost from_gives = { λ _ e. e ≡ Memory };

    fn from(_error: Memory) -> StepStop {
        StepStop::Memory
    }
}

impl From<Cause> for StepStop {
    ghost use Rattle.std.specs.Prelude.{◌≡◌};
    ghost use Rattle.op_steps.specs.declared.refusal.StepStop.TheVariants.{Trap};

    ghost from_gives = { λ cause e. e ≡ Trap cause };

    fn from(cause: Cause) -> StepStop {
        StepStop::Trap(cause)
    }
}
