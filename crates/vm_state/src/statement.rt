ghost use Rattle.std.specs.Prelude.{◌≡◌, ◌≤◌, All, length, nat_eq};
ghost use Rattle.vm_field.specs.Limits.{least_depth, most_inputs, most_kernel, most_outputs};
ghost use Rattle.vm_field.specs.Field.{AreElements};
ghost use Rattle.vm_field.specs.Machine.{IsWord};
ghost use Rattle.std.specs.List.{IsDistinct};
ghost use Rattle.std.proofs.lemmas.Map.Keys.{IsDistinct-prop};
ghost use lib.Pointwise.{pointwise};

use vm_field::{Felts, LEAST_DEPTH, MOST_CYCLES, MOST_INPUTS, MOST_KERNEL, Word, Words};

/// What a run proves: a tree of this digest, with this kernel, came from these inputs to these
/// outputs. The kernel's digests differ; the lists of cells stand top first.
#[derive(Drop)]
pub struct Statement {
    pub digest: Word,
    pub kernel: Words,
    pub inputs: Felts,
    pub outputs: Felts,
    pub ghost few: { length kernel ≤ most_kernel },
    pub ghost distinct: { IsDistinct (pointwise nat_eq) kernel } by { IsDistinct-prop (pointwise nat_eq) kernel },
    pub ghost inputs_few: { length inputs ≤ most_inputs },
    pub ghost outputs_full: { least_depth ≤ length outputs },
    pub ghost outputs_few: { length outputs ≤ most_outputs },
    pub ghost digest_word: { IsWord digest },
    pub ghost kernel_words: { All IsWord kernel },
    pub ghost inputs_below: { AreElements inputs },
    pub ghost outputs_below: { AreElements outputs },
}

impl Statement {
    /// At most so many procedures has a kernel.
    pub const MOST_KERNEL: usize = MOST_KERNEL;

    /// So many cells has a stack at least.
    pub const LEAST_OUTPUTS: usize = LEAST_DEPTH;

    /// So many cells has a stack at most when a run has ended.
    pub const MOST_OUTPUTS: usize = MOST_CYCLES as usize + MOST_INPUTS;

    /// The statement of these parts.
    pub fn new(digest: Word, kernel: Words, inputs: Felts, outputs: Felts) -> Statement
        requires few { length kernel ≤ most_kernel }
        requires distinct { IsDistinct (pointwise nat_eq) kernel }
        requires inputs_few { length inputs ≤ most_inputs }
        requires outputs_full { least_depth ≤ length outputs }
        requires outputs_few { length outputs ≤ most_outputs }
        ensures digest { result.digest ≡ digest }
        ensures kernel { result.kernel ≡ kernel }
        ensures inputs { result.inputs ≡ inputs }
        ensures outputs { result.outputs ≡ outputs }
    {
        digest.known();
        let _ = (kernel.len(), inputs.len(), outputs.len());
        Statement {
            digest,
            kernel,
            inputs,
            outputs,
        }
    }
}
