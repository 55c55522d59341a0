ghost use Rattle.std.specs.Prelude.{◌≡◌, ◌+◌, ◌^◌, ◌<◌, IfOk, IfErr, length};
ghost use Rattle.rpo_hash.specs.Constants.{constants_of};
ghost use Rattle.block_tree.specs.Trees.{tree_digest};
ghost use Rattle.block_tree.specs.TreeView.{tree_of};
ghost use Rattle.tree_merge.specs.AddrEvidences.{IsAddrEvidence};
ghost use Rattle.source_check.specs.Numbering.{blocks_in};
ghost use Rattle.source_check.specs.SourceEvidences.{IsSourceEvidence, IsSourceStop, public_of};

use crate::comparing::{Compared, compare};
use crate::evidence::{SourceEvidence, SourceStop};
use air_kit::Trace;
use block_tree::Program;
use perm_memo::Permutations;
use rpo_hash::Params;
use std::alloc::Global;
use tree_hash::hashed;
use tree_merge::AddrEvidence;
use vm_state::Statement;

/// Evidence that a program ran, from that of a trace: a run of a tree that refines the program's, so that
/// no block is left of which only the digest is known; or two hashes of different inputs and one digest, of
/// which the second may be that of a block of the program. A pair of the trace stays what it is.
/// The rows of the hasher's table and the program's blocks are together fewer than 2^32, so that each
/// block has an address behind these rows.
///
/// # Errors
///
/// `OtherDigest` exactly where the program has another digest than the statement. `Memory` where the
/// system gave none.
pub fn check_source(
    alloc: Global,
    params: &Params,
    trace: &Trace,
    statement: &Statement,
    evidence: AddrEvidence,
    program: &Program,
) -> Result<SourceEvidence, SourceStop>
    requires evidence { IsAddrEvidence (public_of params.now statement.now) trace.now evidence }
    requires room { length trace.now.hasher + blocks_in (constants_of params.now) (tree_of program.now.tree) < 2 ^ 32 }
    ensures digest { IfOk result (λ _. tree_digest (constants_of params.now) (tree_of program.now.tree) ≡ statement.now.digest) }
    ensures ok { IfOk result (λ e. IsSourceEvidence (public_of params.now statement.now) trace.now (tree_of program.now.tree) e) }
    ensures err { IfErr result (λ stop. IsSourceStop (public_of params.now statement.now) (tree_of program.now.tree) stop) }
{
    let permutations = Permutations::keeping_none(alloc, params);
    let (source, _) = hashed(alloc, permutations, &program.tree)?;
    let digest = source.digest();
    if digest != statement.digest {
        return Err(SourceStop::OtherDigest {
            file: statement.digest,
            source: digest,
        });
    }
    match evidence {
        AddrEvidence::Run { cycles, tree, tape } => {
            match compare(alloc, params, trace, &source, tree)? {
                Compared::Merged(tree) => Ok(SourceEvidence::Ran { cycles, tree, tape }),
                Compared::Clash { address, node } => {
                    Ok(SourceEvidence::ClashNode { address, node })
                }
            }
        }
        AddrEvidence::Pair { first, second } => Ok(SourceEvidence::ClashFile { first, second }),
    }
}
