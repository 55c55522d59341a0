ghost use Rattle.std.specs.Prelude.{IfOk};
ghost use Rattle.air_kit.specs.declared.trace.Public.{Public};
ghost use Rattle.air_kit.specs.declared.trace.Trace.{Trace};
ghost use Rattle.tree_merge.specs.AddrEvidences.{IsAddrEvidence};
ghost use Rattle.tree_merge.specs.Evidences.{IsEvidence};

use crate::addr_tree::AddrTree;
use crate::plain::into_tree;
use block_tree::Evidence;
use std::alloc::Global;
use vm_field::{Felts, Memory};

/// What an accepted trace shows, with the addresses of its blocks' hashes.
#[derive(Drop)]
pub enum AddrEvidence {
    /// A run of so many cycles of a tree, some blocks of which may be opaque, on a tape of advice.
    /// Each other block is hashed in the trace at its address.
    Run {
        cycles: u32,
        tree: AddrTree,
        tape: Felts,
    },
    /// Two addresses of the hasher's table, the lower first, at which hashes of different inputs
    /// begin that have one digest.
    Pair {
        first: u32,
        second: u32,
    },
}

/// The evidence without the addresses of its tree.
pub fn into_evidence(alloc: Global, evidence: AddrEvidence) -> Result<Evidence, Memory>
    ensures is { (p : Public) (t : Trace) → IsAddrEvidence p t evidence → IfOk result (λ bare. IsEvidence p t bare) }
{
    match evidence {
        AddrEvidence::Run { cycles, tree, tape } => {
            let tree = into_tree(alloc, tree)?;
            Ok(Evidence::Run { cycles, tree, tape })
        }
        AddrEvidence::Pair { first, second } => Ok(Evidence::Pair { first, second }),
    }
}
