ghost use Rattle.std.specs.Prelude.{◌≡◌, suc, ◌+◌, ◌<◌, length, IfOk, IfErr};
ghost use Rattle.vm_ops.specs.declared.op.Op.TheVariants as ops;
ghost use Rattle.air_kit.specs.RowStates.{tape_of};
ghost use Rattle.sound_buses.specs.Blocks.{IsAt, Starts};
ghost use Rattle.sound_evidence.specs.Walking.{IsFound, IsWalkable, IsWholeTree, Takes};
ghost use Rattle.tree_merge.specs.Merges.{IsStop};

use crate::cells::{address, called_digest, first_digest, operation, second_digest, top};
use crate::found::{Found, Walked, boxed, only_target};
use crate::spans::span;
use crate::turns::turns;
use air_kit::{Public, Trace};
use std::alloc::Global;
use tree_merge::{AddrTree, MergeStop, dynamic};
use vm_field::{Felt, Felts};
use vm_ops::Op;

/// The tree of the whole trace: it has the statement's digest. Or two hashes of different inputs and one digest.
pub fn whole(alloc: Global, public: &Public, trace: &Trace) -> Result<Found, MergeStop>
    requires { IsWalkable public.now trace.now }
    ensures ok { IfOk result (λ found. IsWholeTree public.now trace.now found) }
    ensures err { IfErr result (λ stop. IsStop public.now.params trace.now stop) }
{
    let walked = whole_with_tape(alloc, public, trace)?;
    Ok(walked.found)
}

/// The same, with what its rows take from the tape.
pub fn whole_with_tape(alloc: Global, public: &Public, trace: &Trace) -> Result<Walked, MergeStop>
    requires { IsWalkable public.now trace.now }
    ensures ok { IfOk result (λ walked. IsWholeTree public.now trace.now walked.found) }
    ensures tape { IfOk result (λ walked. walked.tape ≡ tape_of trace.now.main) }
    ensures err { IfErr result (λ stop. IsStop public.now.params trace.now stop) }
{
    let mut tape = Felts::new(alloc);
    let found = block(alloc, public, trace, 0, &mut tape)?;
    Ok(Walked { found, tape })
}

// The tree of the block that starts in row i, and the row of its END. Where the turns of a loop show two blocks of one digest that
// differ, two hashes of different inputs and one digest. It calls itself at each block that is nested in another one.
#[cycle(blocks)]
pub(crate) fn block(
    alloc: Global,
    public: &Public,
    trace: &Trace,
    i: usize,
    tape: &mut Felts,
) -> Result<Found, MergeStop>
    requires readable { IsWalkable public.now trace.now }
    requires starts { Starts trace.now.main i }
    ensures ok { IfOk result (λ found. IsFound public.now trace.now i found) }
    ensures tape { IfOk result (λ found. Takes trace.now.main i (found.end + 1) tape.old tape.new) }
    ensures err { IfErr result (λ stop. IsStop public.now.params trace.now stop) }
{
    match operation(trace, i) {
        Op::Span => span(alloc, public, trace, i, tape),
        Op::Join => join(alloc, public, trace, i, tape),
        Op::Split => split(alloc, public, trace, i, tape),
        Op::Loop => looped(alloc, public, trace, i, tape),
        Op::Call => call(alloc, public, trace, i, tape),
        Op::Syscall => syscall(alloc, public, trace, i, tape),
        Op::Dyn => dyn_block(alloc, public, trace, i, tape),
        _ => unreachable!(),
    }
}

// A join's two blocks, one behind the other.
#[cycle(blocks)]
fn join(
    alloc: Global,
    public: &Public,
    trace: &Trace,
    i: usize,
    tape: &mut Felts,
) -> Result<Found, MergeStop>
    requires readable { IsWalkable public.now trace.now }
    requires is { IsAt trace.now.main i ops.Join }
    ensures ok { IfOk result (λ found. IsFound public.now trace.now i found) }
    ensures tape { IfOk result (λ found. Takes trace.now.main i (found.end + 1) tape.old tape.new) }
    ensures err { IfErr result (λ stop. IsStop public.now.params trace.now stop) }
{
    let first = block(alloc, public, trace, i + 1, tape)?;
    let second = block(alloc, public, trace, first.end + 1, tape)?;
    let one = boxed(alloc, first.tree)?;
    let other = boxed(alloc, second.tree)?;
    Ok(Found {
        end: second.end + 1,
        tree: AddrTree::Join(address(trace, i), one, other),
    })
}

// The branch of a split that ran, and the other one's digest.
#[cycle(blocks)]
fn split(
    alloc: Global,
    public: &Public,
    trace: &Trace,
    i: usize,
    tape: &mut Felts,
) -> Result<Found, MergeStop>
    requires readable { IsWalkable public.now trace.now }
    requires is { IsAt trace.now.main i ops.Split }
    ensures ok { IfOk result (λ found. IsFound public.now trace.now i found) }
    ensures tape { IfOk result (λ found. Takes trace.now.main i (found.end + 1) tape.old tape.new) }
    ensures err { IfErr result (λ stop. IsStop public.now.params trace.now stop) }
{
    let branch = block(alloc, public, trace, i + 1, tape)?;
    let ran = boxed(alloc, branch.tree)?;
    let end = branch.end + 1;
    let at = address(trace, i);
    if top(trace, i) == Felt::ONE {
        let zero = boxed(alloc, AddrTree::Opaque(second_digest(trace, i)))?;
        return Ok(Found {
            end,
            tree: AddrTree::Split(at, ran, zero),
        });
    }
    let one = boxed(alloc, AddrTree::Opaque(first_digest(trace, i)))?;
    Ok(Found {
        end,
        tree: AddrTree::Split(at, one, ran),
    })
}

// A loop that was entered or skipped.
#[cycle(blocks)]
fn looped(
    alloc: Global,
    public: &Public,
    trace: &Trace,
    i: usize,
    tape: &mut Felts,
) -> Result<Found, MergeStop>
    requires readable { IsWalkable public.now trace.now }
    requires is { IsAt trace.now.main i ops.Loop }
    ensures ok { IfOk result (λ found. IsFound public.now trace.now i found) }
    ensures tape { IfOk result (λ found. Takes trace.now.main i (found.end + 1) tape.old tape.new) }
    ensures err { IfErr result (λ stop. IsStop public.now.params trace.now stop) }
{
    if top(trace, i) == Felt::ONE {
        return turns(alloc, public, trace, i, tape);
    }
    let body = boxed(alloc, AddrTree::Opaque(first_digest(trace, i)))?;
    Ok(Found {
        end: i + 1,
        tree: AddrTree::Loop(address(trace, i), body),
    })
}

// The block that is called.
#[cycle(blocks)]
fn call(
    alloc: Global,
    public: &Public,
    trace: &Trace,
    i: usize,
    tape: &mut Felts,
) -> Result<Found, MergeStop>
    requires readable { IsWalkable public.now trace.now }
    requires is { IsAt trace.now.main i ops.Call }
    ensures ok { IfOk result (λ found. IsFound public.now trace.now i found) }
    ensures tape { IfOk result (λ found. Takes trace.now.main i (found.end + 1) tape.old tape.new) }
    ensures err { IfErr result (λ stop. IsStop public.now.params trace.now stop) }
{
    let callee = block(alloc, public, trace, i + 1, tape)?;
    let child = boxed(alloc, callee.tree)?;
    Ok(Found {
        end: callee.end + 1,
        tree: AddrTree::Call(address(trace, i), child),
    })
}

// The block of the kernel that is called.
#[cycle(blocks)]
fn syscall(
    alloc: Global,
    public: &Public,
    trace: &Trace,
    i: usize,
    tape: &mut Felts,
) -> Result<Found, MergeStop>
    requires readable { IsWalkable public.now trace.now }
    requires is { IsAt trace.now.main i ops.Syscall }
    ensures ok { IfOk result (λ found. IsFound public.now trace.now i found) }
    ensures tape { IfOk result (λ found. Takes trace.now.main i (found.end + 1) tape.old tape.new) }
    ensures err { IfErr result (λ stop. IsStop public.now.params trace.now stop) }
{
    let callee = block(alloc, public, trace, i + 1, tape)?;
    let child = boxed(alloc, callee.tree)?;
    Ok(Found {
        end: callee.end + 1,
        tree: AddrTree::Syscall(address(trace, i), child),
    })
}

// The target that ran, by the digest on top of the stack.
#[cycle(blocks)]
fn dyn_block(
    alloc: Global,
    public: &Public,
    trace: &Trace,
    i: usize,
    tape: &mut Felts,
) -> Result<Found, MergeStop>
    requires readable { IsWalkable public.now trace.now }
    requires is { IsAt trace.now.main i ops.Dyn }
    ensures ok { IfOk result (λ found. IsFound public.now trace.now i found) }
    ensures tape { IfOk result (λ found. Takes trace.now.main i (found.end + 1) tape.old tape.new) }
    ensures err { IfErr result (λ stop. IsStop public.now.params trace.now stop) }
{
    let child = block(alloc, public, trace, i + 1, tape)?;
    let targets = only_target(alloc, called_digest(trace, i), child.tree)?;
    Ok(Found {
        end: child.end + 1,
        tree: dynamic(address(trace, i), targets),
    })
}
