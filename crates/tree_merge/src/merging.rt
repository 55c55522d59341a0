ghost use Rattle.std.specs.Prelude.{◌≡◌, ◌≢◌, ◌∷◌, ◌++◌, [], ◌<◌, ◌≤◌, ℕ, List, IfOk, IfErr, OnOk};
ghost use Rattle.tree_merge.specs.AddrView.{entries_of, placed_of};
ghost use Rattle.tree_merge.specs.Targets.{IsFirstAt};
ghost use Rattle.tree_merge.specs.Merges.{AreGoodTargets, AreMergeable, AreMergeableBy, AreTargetsMerged, DifferAt, HaveOne, HaveTwo, IsGoodTarget, IsMerged, IsMergedBy, IsStop, IsStopBy, IsTargetAdded};
ghost use Rattle.tree_merge.specs.Placed.{kind_of};
ghost use Rattle.tree_merge.specs.Sides.{AreAboveUnless, AreApart, AreTargetsApart, IsAcross, IsTargetApart};

use crate::addr_tree::{AddrTree, AddrTrees, MergeStop, Target, address, kind};
use crate::blocks::same_block;
use crate::hashes::Hashes;
use crate::targets::{place, push};
use air_kit::Trace;
use op_pack::Batches;
use rpo_hash::Params;
use std::mem;
use vm_field::Word;

/// One tree that refines both of two trees of one digest whose blocks are hashed in a trace, as
/// `merge_in` has it.
pub fn merge(
    params: &Params,
    trace: &Trace,
    a: AddrTree,
    b: AddrTree,
) -> Result<AddrTree, MergeStop>
    requires { AreMergeable params.now trace.now a b }
    ensures ok { IfOk result (λ m. IsMerged params.now trace.now a b m) }
    ensures err { IfErr result (λ stop. IsStop params.now trace.now stop) }
{
    merge_in(params, trace, a, b)
}

/// One tree that refines both of two trees of one digest, with addresses of the hashes of its blocks
/// again. Or two hashes of different inputs and one digest; then both trees are given up. Whether two
/// blocks agree is read where the hashes stand, so that nothing is hashed and nothing is copied.
/// Of two dynamic blocks the first one's targets come first, each merged with the second's of its
/// digest, and then those of the second whose digests the first has not, in their order. Putting them
/// there takes memory, and nothing else does: `Memory` where it was refused. It goes down both trees
/// at once, no deeper than the lower one is high, by four calls a level, or five at a dynamic block.
/// Where all addresses of the first tree lie above all of the second, a pair has one of each.
#[cycle(merging)]
pub fn merge_in<H: Hashes>(
    params: &Params,
    hashes: &H,
    a: AddrTree,
    b: AddrTree,
) -> Result<AddrTree, MergeStop>
    requires { AreMergeableBy params.now (H.hashed_at hashes.now) a b }
    ensures ok { IfOk result (λ m. IsMergedBy params.now (H.hashed_at hashes.now) a b m) }
    ensures err { IfErr result (λ stop. IsStopBy params.now (H.hashed_at hashes.now) stop) }
    ensures sides { (bound : ℕ) → AreApart bound a b → IfErr result (λ stop. IsAcross bound stop) }
{
    if kind(&a) == 0 {
        return Ok(b);
    }
    if kind(&b) == 0 {
        return Ok(a);
    }
    if kind(&a) != kind(&b) {
        return Err(pair(params, hashes, address(&a), address(&b)));
    }
    of_one_kind(params, hashes, a, b)
}

// Two blocks of one kind.
#[cycle(merging)]
fn of_one_kind<H: Hashes>(
    params: &Params,
    hashes: &H,
    a: AddrTree,
    b: AddrTree,
) -> Result<AddrTree, MergeStop>
    requires mergeable { AreMergeableBy params.now (H.hashed_at hashes.now) a b }
    requires known { kind_of (placed_of a) ≢ 0 }
    requires one_kind { kind_of (placed_of a) ≡ kind_of (placed_of b) }
    ensures ok { IfOk result (λ m. IsMergedBy params.now (H.hashed_at hashes.now) a b m) }
    ensures err { IfErr result (λ stop. IsStopBy params.now (H.hashed_at hashes.now) stop) }
    ensures sides { (bound : ℕ) → AreApart bound a b → IfErr result (λ stop. IsAcross bound stop) }
{
    match a {
        AddrTree::Opaque(_) => unreachable!(),
        AddrTree::Span(p, x) => match b {
            AddrTree::Span(q, y) => span(params, hashes, p, x, q, y),
            _ => unreachable!(),
        },
        AddrTree::Join(p, x, y) => match b {
            AddrTree::Join(q, z, w) => {
                let (x, y) = two(params, hashes, p, x, y, q, z, w)?;
                Ok(AddrTree::Join(p, x, y))
            }
            _ => unreachable!(),
        },
        AddrTree::Split(p, x, y) => match b {
            AddrTree::Split(q, z, w) => {
                let (x, y) = two(params, hashes, p, x, y, q, z, w)?;
                Ok(AddrTree::Split(p, x, y))
            }
            _ => unreachable!(),
        },
        AddrTree::Loop(p, x) => match b {
            AddrTree::Loop(q, y) => Ok(AddrTree::Loop(p, one(params, hashes, p, x, q, y)?)),
            _ => unreachable!(),
        },
        AddrTree::Call(p, x) => match b {
            AddrTree::Call(q, y) => Ok(AddrTree::Call(p, one(params, hashes, p, x, q, y)?)),
            _ => unreachable!(),
        },
        AddrTree::Syscall(p, x) => match b {
            AddrTree::Syscall(q, y) => Ok(AddrTree::Syscall(p, one(params, hashes, p, x, q, y)?)),
            _ => unreachable!(),
        },
        AddrTree::Dyn(p, x) => match b {
            AddrTree::Dyn(_, y) => Ok(AddrTree::Dyn(p, merge_targets(params, hashes, x, y)?)),
            _ => unreachable!(),
        },
    }
}

// Two spans of one digest.
fn span<H: Hashes>(
    params: &Params,
    hashes: &H,
    p: u32,
    a: Batches,
    q: u32,
    b: Batches,
) -> Result<AddrTree, MergeStop>
    requires { AreMergeableBy params.now (H.hashed_at hashes.now) (AddrTree.Span p a) (AddrTree.Span q b) }
    ensures ok { IfOk result (λ m. IsMergedBy params.now (H.hashed_at hashes.now) (AddrTree.Span p a) (AddrTree.Span q b) m) }
    ensures err { IfErr result (λ stop. IsStopBy params.now (H.hashed_at hashes.now) stop) }
    ensures sides { (bound : ℕ) → AreApart bound (AddrTree.Span p a) (AddrTree.Span q b) → IfErr result (λ stop. IsAcross bound stop) }
{
    if a.as_slice() != b.as_slice() {
        return Err(pair(params, hashes, p, q));
    }
    Ok(AddrTree::Span(p, a))
}

// The children of two blocks with two children each.
#[cycle(merging)]
fn two<H: Hashes>(
    params: &Params,
    hashes: &H,
    p: u32,
    a: Box<AddrTree>,
    b: Box<AddrTree>,
    q: u32,
    c: Box<AddrTree>,
    d: Box<AddrTree>,
) -> Result<(Box<AddrTree>, Box<AddrTree>), MergeStop>
    requires { HaveTwo params.now (H.hashed_at hashes.now) p q a.value b.value c.value d.value }
    ensures first { IfOk result (λ m. IsMergedBy params.now (H.hashed_at hashes.now) a.value c.value m.0.value) }
    ensures second { IfOk result (λ m. IsMergedBy params.now (H.hashed_at hashes.now) b.value d.value m.1.value) }
    ensures err { IfErr result (λ stop. IsStopBy params.now (H.hashed_at hashes.now) stop) }
    ensures sides { (bound : ℕ) → bound < p → q ≤ bound → AreApart bound a.value c.value → AreApart bound b.value d.value
        → IfErr result (λ stop. IsAcross bound stop) }
{
    if !same_block(hashes, p, q) {
        return Err(pair(params, hashes, p, q));
    }
    Ok((boxed(params, hashes, a, c)?, boxed(params, hashes, b, d)?))
}

// The children of two blocks with one child each.
#[cycle(merging)]
fn one<H: Hashes>(
    params: &Params,
    hashes: &H,
    p: u32,
    a: Box<AddrTree>,
    q: u32,
    c: Box<AddrTree>,
) -> Result<Box<AddrTree>, MergeStop>
    requires { HaveOne params.now (H.hashed_at hashes.now) p q a.value c.value }
    ensures ok { IfOk result (λ m. IsMergedBy params.now (H.hashed_at hashes.now) a.value c.value m.value) }
    ensures err { IfErr result (λ stop. IsStopBy params.now (H.hashed_at hashes.now) stop) }
    ensures sides { (bound : ℕ) → bound < p → q ≤ bound → AreApart bound a.value c.value → IfErr result (λ stop. IsAcross bound stop) }
{
    if same_block(hashes, p, q) {
        return boxed(params, hashes, a, c);
    }
    Err(pair(params, hashes, p, q))
}

// Two trees in boxes, merged in the first box.
#[cycle(merging)]
fn boxed<H: Hashes>(
    params: &Params,
    hashes: &H,
    mut a: Box<AddrTree>,
    b: Box<AddrTree>,
) -> Result<Box<AddrTree>, MergeStop>
    requires { AreMergeableBy params.now (H.hashed_at hashes.now) a.value b.value }
    ensures ok { IfOk result (λ m. IsMergedBy params.now (H.hashed_at hashes.now) a.value b.value m.value) }
    ensures err { IfErr result (λ stop. IsStopBy params.now (H.hashed_at hashes.now) stop) }
    ensures sides { (bound : ℕ) → AreApart bound a.value b.value → IfErr result (λ stop. IsAcross bound stop) }
{
    let first = mem::replace(&mut *a, AddrTree::Opaque(Word::ZERO));
    *a = merge_in(params, hashes, first, Box::into_inner(b))?;
    Ok(a)
}

// The targets of the first list, with those of the second merged in, in their order.
#[cycle(merging)]
fn merge_targets<H: Hashes>(
    params: &Params,
    hashes: &H,
    a: AddrTrees,
    b: AddrTrees,
) -> Result<AddrTrees, MergeStop>
    requires first { AreGoodTargets params.now (H.hashed_at hashes.now) a.items }
    requires second { AreGoodTargets params.now (H.hashed_at hashes.now) b.items }
    ensures ok { IfOk result (λ m. AreTargetsMerged params.now (H.hashed_at hashes.now) a.items b.items m.items) }
    ensures err { IfErr result (λ stop. IsStopBy params.now (H.hashed_at hashes.now) stop) }
    ensures sides { (bound : ℕ) → AreTargetsApart bound a.items b.items → IfErr result (λ stop. IsAcross bound stop) }
{
    let mut merged = a;
    for target in b {
        add_target(params, hashes, &mut merged, target)?;
    }
    Ok(merged)
}

// One target merged in: with the first of its digest, in its place, or else at the end.
#[cycle(merging)]
fn add_target<H: Hashes>(
    params: &Params,
    hashes: &H,
    targets: &mut AddrTrees,
    target: Target,
) -> Result<(), MergeStop>
    requires old { AreGoodTargets params.now (H.hashed_at hashes.now) targets.now.items }
    requires one { IsGoodTarget params.now (H.hashed_at hashes.now) target }
    ensures ok { OnOk result (IsTargetAdded params.now (H.hashed_at hashes.now) targets.old.items target targets.new.items) }
    ensures err { IfErr result (λ stop. IsStopBy params.now (H.hashed_at hashes.now) stop) }
    ensures sides { (bound : ℕ) (known : List (List ℕ)) → IsTargetApart bound known targets.old.items target → IfErr result (λ stop. IsAcross bound stop) }
    ensures above { (bound : ℕ) (known : List (List ℕ)) → IsTargetApart bound known targets.old.items target
        → OnOk result (AreAboveUnless bound (known ++ target.digest ∷ []) targets.new.items) }
{
    match place(targets.as_slice(), target.digest) {
        Some(i) => merge_at(params, hashes, targets, i, target),
        None => push(targets, target),
    }
}

// A target merged with the first of its digest, which has so many before it.
#[cycle(merging)]
fn merge_at<H: Hashes>(
    params: &Params,
    hashes: &H,
    targets: &mut AddrTrees,
    i: usize,
    target: Target,
) -> Result<(), MergeStop>
    requires old { AreGoodTargets params.now (H.hashed_at hashes.now) targets.now.items }
    requires one { IsGoodTarget params.now (H.hashed_at hashes.now) target }
    requires place { IsFirstAt (entries_of targets.now.items) target.digest i }
    ensures ok { OnOk result (IsTargetAdded params.now (H.hashed_at hashes.now) targets.old.items target targets.new.items) }
    ensures err { IfErr result (λ stop. IsStopBy params.now (H.hashed_at hashes.now) stop) }
    ensures sides { (bound : ℕ) (known : List (List ℕ)) → IsTargetApart bound known targets.old.items target → IfErr result (λ stop. IsAcross bound stop) }
    ensures above { (bound : ℕ) (known : List (List ℕ)) → IsTargetApart bound known targets.old.items target
        → OnOk result (AreAboveUnless bound (known ++ target.digest ∷ []) targets.new.items) }
{
    let slot = &mut targets[i];
    let first = mem::replace(&mut slot.tree, AddrTree::Opaque(Word::ZERO));
    slot.tree = merge_in(params, hashes, first, target.tree)?;
    Ok(())
}

// Two addresses at which different inputs of one digest are hashed.
fn pair<H: Hashes>(params: &Params, hashes: &H, p: u32, q: u32) -> MergeStop
    requires { DifferAt params.now (H.hashed_at hashes.now) p q }
    ensures stop { IsStopBy params.now (H.hashed_at hashes.now) result }
    ensures sides { (bound : ℕ) → bound < p → q ≤ bound → IsAcross bound result }
{
    MergeStop::Pair {
        first: p.min(q),
        second: p.max(q),
    }
}
