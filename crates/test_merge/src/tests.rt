ghost use Rattle.std.specs.Prelude.{◌≡◌, IfOk};
ghost use Rattle.test_merge.specs.Hashes.{AreZeros, hasher_rows};
ghost use Rattle.test_merge.specs.Trees.{entered, first_ran, none_taken, not_entered, one_batch, one_in_front, ones, second_ran, second_taken, taken, taken_with, two_batches, untaken};
ghost use Rattle.rpo_hash.specs.Constants.{constants_of};
ghost use Rattle.tree_merge.specs.AddrView.{entry_of, placed_of};

use crate::making::{NO_CONSTANTS, are_zeros, one, trace, two};
use air_kit::Trace;
use block_tree::Tree;
use rpo_hash::Params;
use std::alloc::Global;
use std::process::Abort;
use std::test::Fail;
use tree_merge::{AddrTree, MergeStop, Target, dynamic, into_tree, merge, pair_laws, run_laws};
use vm_field::{Felt, Memory, Word};

fn one_span(alloc: Global) -> Result<AddrTree, Memory>
    ensures { IfOk result (λ tree. placed_of tree ≡ one_batch) }
{
    Ok(AddrTree::Span(9, one(alloc)?))
}

fn two_span(alloc: Global) -> Result<AddrTree, Memory>
    ensures { IfOk result (λ tree. placed_of tree ≡ two_batches) }
{
    Ok(AddrTree::Span(17, two(alloc)?))
}

fn first(alloc: Global) -> Result<AddrTree, Memory>
    ensures { IfOk result (λ tree. placed_of tree ≡ first_ran) }
{
    let on_one = Box::new(alloc, one_span(alloc)?)?;
    let on_zero = Box::new(alloc, AddrTree::Opaque(Word::ZERO))?;
    Ok(AddrTree::Split(33, on_one, on_zero))
}

fn second(alloc: Global) -> Result<AddrTree, Memory>
    ensures { IfOk result (λ tree. placed_of tree ≡ second_ran) }
{
    let on_one = Box::new(alloc, AddrTree::Opaque(Word::ZERO))?;
    let on_zero = Box::new(alloc, two_span(alloc)?)?;
    Ok(AddrTree::Split(33, on_one, on_zero))
}

fn outer(alloc: Global) -> Result<AddrTree, Memory>
    ensures { IfOk result (λ tree. placed_of tree ≡ not_entered) }
{
    let body = Box::new(alloc, AddrTree::Opaque(Word::ZERO))?;
    Ok(AddrTree::Loop(41, body))
}

fn inner(alloc: Global) -> Result<AddrTree, Memory>
    ensures { IfOk result (λ tree. placed_of tree ≡ entered) }
{
    let body = Box::new(alloc, one_span(alloc)?)?;
    Ok(AddrTree::Loop(41, body))
}

fn untaken_target(digest: Word) -> Target
    ensures { entry_of result ≡ untaken digest }
{
    Target {
        digest,
        tree: AddrTree::Opaque(digest),
    }
}

const ONES: Word = Word([Felt::ONE; 4]);

const ONE_IN_FRONT: Word = Word([Felt::ONE, Felt::ZERO, Felt::ZERO, Felt::ZERO]);

fn two_untaken(alloc: Global) -> Result<AddrTree, Memory>
    ensures { IfOk result (λ tree. placed_of tree ≡ none_taken) }
{
    let mut targets = Vec::new(alloc);
    targets.push(untaken_target(Word::ZERO))?;
    targets.push(untaken_target(ONES))?;
    Ok(dynamic(49, targets))
}

fn one_taken(alloc: Global) -> Result<AddrTree, Memory>
    ensures { IfOk result (λ tree. placed_of tree ≡ second_taken) }
{
    let mut targets = Vec::new(alloc);
    targets.push(untaken_target(ONE_IN_FRONT))?;
    let tree = one_span(alloc)?;
    targets.push(Target {
        digest: Word::ZERO,
        tree,
    })?;
    Ok(dynamic(49, targets))
}

// The dynamic block that took this tree, of a digest of zeros.
fn only_taken(alloc: Global, tree: AddrTree) -> Result<AddrTree, Memory>
    ensures { IfOk result (λ block. placed_of block ≡ taken_with (placed_of tree)) }
{
    let mut targets = Vec::new(alloc);
    targets.push(Target {
        digest: Word::ZERO,
        tree,
    })?;
    Ok(dynamic(49, targets))
}

// Spans of one and of two batches of zeros have one digest.
fn are_a_pair(alloc: Global, params: &Params, trace: &Trace) -> Result<bool, Memory>
    requires hasher { trace.now.hasher ≡ hasher_rows }
    requires zeros { AreZeros (constants_of params.now) }
{
    let a = one_span(alloc)?;
    let b = two_span(alloc)?;
    let merged = merge(params, trace, a, b);
    Ok(matches!(
        merged,
        Err(MergeStop::Pair {
            first: 9,
            second: 17
        })
    ))
}

fn is_span(tree: &Tree, batches: usize) -> bool {
    match tree {
        Tree::Span(all) => all.len() == batches,
        _ => false,
    }
}

fn is_split(tree: &Tree) -> bool {
    match tree {
        Tree::Split(a, b) => is_span(a, 1) && is_span(b, 2),
        _ => false,
    }
}

fn is_loop(tree: &Tree) -> bool {
    match tree {
        Tree::Loop(a) => is_span(a, 1),
        _ => false,
    }
}

fn is_opaque(tree: &Tree, digest: Word) -> bool {
    match tree {
        Tree::Opaque(known) => *known == digest,
        _ => false,
    }
}

// The first block's targets in their places, and then the one that it has not.
fn has_targets(tree: &Tree) -> bool {
    match tree {
        Tree::Dyn(targets) => {
            let targets = targets.as_slice();
            targets.len() == 3
                && is_span(&targets[0], 1)
                && is_opaque(&targets[1], ONES)
                && is_opaque(&targets[2], ONE_IN_FRONT)
        }
        _ => false,
    }
}

// Of two splits each knows another branch.
fn are_both_known(alloc: Global, params: &Params, trace: &Trace) -> Result<bool, Memory>
    requires hasher { trace.now.hasher ≡ hasher_rows }
    requires zeros { AreZeros (constants_of params.now) }
{
    let a = first(alloc)?;
    let b = second(alloc)?;
    let Ok(merged) = merge(params, trace, a, b) else {
        return Ok(false);
    };
    let tree = into_tree(alloc, merged)?;
    Ok(is_split(&tree))
}

// Of two loops the second knows the body.
fn is_body_known(alloc: Global, params: &Params, trace: &Trace) -> Result<bool, Memory>
    requires hasher { trace.now.hasher ≡ hasher_rows }
    requires zeros { AreZeros (constants_of params.now) }
{
    let a = outer(alloc)?;
    let b = inner(alloc)?;
    let Ok(merged) = merge(params, trace, a, b) else {
        return Ok(false);
    };
    let tree = into_tree(alloc, merged)?;
    Ok(is_loop(&tree))
}

// Of two dynamic blocks the second knows the tree of the first one's first target, and has a target more.
fn are_targets_merged(alloc: Global, params: &Params, trace: &Trace) -> Result<bool, Memory>
    requires hasher { trace.now.hasher ≡ hasher_rows }
    requires zeros { AreZeros (constants_of params.now) }
{
    let a = two_untaken(alloc)?;
    let b = one_taken(alloc)?;
    let Ok(merged) = merge(params, trace, a, b) else {
        return Ok(false);
    };
    let tree = into_tree(alloc, merged)?;
    Ok(has_targets(&tree))
}

// Targets of one digest are spans of one and of two batches.
fn are_targets_a_pair(alloc: Global, params: &Params, trace: &Trace) -> Result<bool, Memory>
    requires hasher { trace.now.hasher ≡ hasher_rows }
    requires zeros { AreZeros (constants_of params.now) }
{
    let one = one_span(alloc)?;
    let two = two_span(alloc)?;
    let a = only_taken(alloc, one)?;
    let b = only_taken(alloc, two)?;
    let merged = merge(params, trace, a, b);
    Ok(matches!(
        merged,
        Err(MergeStop::Pair {
            first: 9,
            second: 17
        })
    ))
}

#[test]
fn finds_a_pair(rt: HostRuntime) -> Result<(), Fail> {
    let alloc = rt.alloc();
    let trace = trace(alloc)?;
    let params = NO_CONSTANTS;
    let zeros = are_zeros(&params);
    assert!(rt; zeros);
    assert!(rt; are_a_pair(alloc, &params, &trace)?);
    assert!(rt; are_targets_a_pair(alloc, &params, &trace)?);
    Ok(())
}

#[test]
fn merges(rt: HostRuntime) -> Result<(), Fail> {
    let alloc = rt.alloc();
    let trace = trace(alloc)?;
    let params = NO_CONSTANTS;
    let zeros = are_zeros(&params);
    assert!(rt; zeros);
    assert!(rt; are_both_known(alloc, &params, &trace)?);
    assert!(rt; is_body_known(alloc, &params, &trace)?);
    assert!(rt; are_targets_merged(alloc, &params, &trace)?);
    Ok(())
}

#[test]
fn states_laws() {
    pair_laws();
    run_laws();
}
