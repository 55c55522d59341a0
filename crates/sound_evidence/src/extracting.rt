ghost use Rattle.std.specs.Prelude.{◌≡◌, IfOk};
ghost use Rattle.air_kit.specs.Acceptance.{IsAccepted};
ghost use Rattle.air_kit.specs.RowStates.{tape_of};
ghost use Rattle.air_kit.specs.Traces.{HasCounts};
ghost use Rattle.sound_evidence.specs.Walking.{IsWalkable, IsWholeTree};
ghost use Rattle.tree_merge.specs.AddrEvidences.{IsAddrEvidence};
ghost use Rattle.tree_merge.specs.Evidences.{IsEvidence};
ghost use Rattle.sound_evidence.specs.Known.{IsKnown};

use crate::found::Walked;
use crate::walk::whole_with_tape;
use air_kit::{Public, Trace};
use block_tree::Evidence;
use checker::Valid;
use rpo_hash::known_constants;
use std::alloc::Global;
use tree_merge::{AddrEvidence, MergeStop, into_evidence};
use vm_field::Memory;

/// The evidence of an accepted trace: the cycles, a tree and the tape of the run that its rows show, or the places of two hashes in its
/// hasher's table that have different inputs and one digest. There is no other answer. What did not run is opaque in the tree. It
/// calls itself at each block that is nested in another one, and at most 1,024 are.
///
/// # Errors
///
/// `Memory` where the system gave none for the tree and the tape.
pub fn extract(alloc: Global, valid: &Valid) -> Result<Evidence, Memory>
    ensures { IfOk result (IsEvidence valid.now.public valid.now.trace) }
{
    into_evidence(alloc, extract_addr(alloc, valid)?)
}

/// The same evidence, with the address of each block's hash in the hasher's table.
///
/// # Errors
///
/// `Memory` where the system gave none for the tree and the tape.
pub fn extract_addr(alloc: Global, valid: &Valid) -> Result<AddrEvidence, Memory>
    ensures { IfOk result (IsAddrEvidence valid.now.public valid.now.trace) }
{
    let trace = valid.trace();
    let public = valid.public();
    known_trace(public, trace);
    readable_trace(public, trace);
    match whole_with_tape(alloc, public, trace) {
        Ok(walked) => Ok(run_of(public, trace, walked)),
        Err(MergeStop::Pair { first, second }) => Ok(AddrEvidence::Pair { first, second }),
        Err(MergeStop::Memory) => Err(Memory::Memory),
    }
}

// Looks at the tables and the constants, so that a proof learns their sizes. A run does nothing.
#[tactic(auto, using(crate::proofs::Readable::known_of))]
fn known_trace(public: &Public, trace: &Trace)
    requires counts { HasCounts trace.now }
    requires accepted { IsAccepted public.now trace.now }
    ensures { IsKnown public.now trace.now }
{
    known_constants(&public.params);
    let _ = (trace.main.rows(), trace.range.rows(), trace.hasher.rows());
    let _ = (trace.bitwise.rows(), trace.memory.rows());
    let _ = (trace.kernel.rows(), trace.left.rows());
}

// The law of accepted traces. A run does nothing.
#[tactic(auto, using(crate::proofs::Readable::readable))]
fn readable_trace(_public: &Public, _trace: &Trace)
    requires { IsKnown _public.now _trace.now }
    ensures { IsWalkable _public.now _trace.now }
{}

// The run whose tree and tape were found.
fn run_of(public: &Public, trace: &Trace, walked: Walked) -> AddrEvidence
    requires known { IsKnown public.now trace.now }
    requires whole { IsWholeTree public.now trace.now walked.found }
    requires tape { walked.tape ≡ tape_of trace.now.main }
    ensures { IsAddrEvidence public.now trace.now result }
{
    let Walked { found, tape } = walked;
    let tree = found.tree;
    let cycles = (trace.main.rows() - 1) as u32;
    AddrEvidence::Run { cycles, tree, tape }
}
