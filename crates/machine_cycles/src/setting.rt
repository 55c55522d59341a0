ghost use Rattle.std.specs.Prelude.{◌≤◌};
ghost use Rattle.vm_field.specs.Limits.{most_cycles};

use rpo_hash::Params;
use std::alloc::Global;
use vm_field::Word;

/// What stays the same over a run.
#[derive(Clone, Copy, Drop)]
pub struct Setting<'a> {
    pub alloc: Global,
    pub params: &'a Params,
    /// The digests of the kernel's procedures.
    pub kernel: &'a [Word],
    /// The clock at which the run is cut off.
    pub limit: u32,
    pub ghost few: { limit ≤ most_cycles },
}
