ghost use Rattle.std.specs.Prelude.{◌≤◌};

use crate::gates::{Entries, Meeting};
use crate::making::{public, trace};
use crate::runs::Named;
use air_kit::{Public, Trace};
use checker::{Seed, check, check_rows, has_counts};
use std::alloc::Global;
use std::test::Fail;
use std::thread::Threads;
use vm_field::Memory;
use vm_io::Gate;

// The trace of the empty program, which is accepted, and what it is checked against. It has 54 rows.
fn accepted(alloc: Global) -> Result<(Trace, Public), Memory> {
    let run = Named::Empty.run();
    let public = public(alloc, &run, false)?;
    Ok((trace(alloc, &run, false, &[])?, public))
}

// Whether its rows have no fault, in so many pieces behind this gate.
fn has_no_fault<G: Gate>(
    rt: &(impl Threads + Sync),
    alloc: Global,
    pieces: usize,
    gate: &G,
) -> Result<bool, Memory>
    requires { (1 ≤ pieces) × (pieces ≤ 64) }
{
    let (trace, public) = accepted(alloc)?;
    Ok(has_counts(&trace) && check_rows(rt, &trace, &public, pieces, gate).is_none())
}

// Whether it is accepted, in so many pieces behind this gate.
fn is_accepted<G: Gate>(
    rt: &(impl Threads + Sync),
    alloc: Global,
    pieces: usize,
    gate: &G,
) -> Result<bool, Memory>
    requires { (1 ≤ pieces) × (pieces ≤ 64) }
{
    let (trace, public) = accepted(alloc)?;
    Ok(has_counts(&trace) && check(rt, alloc, Seed::new(0), trace, public, pieces, gate).is_ok())
}

#[test]
fn two_pieces_of_rows_meet(rt: HostRuntime) -> Result<(), Fail> {
    let gate = Meeting::at(0);
    assert!(rt; has_no_fault(&rt, rt.alloc(), 2, &gate)?);
    assert!(rt; gate.have_met());
    Ok(())
}

#[test]
fn two_pieces_of_counting_meet(rt: HostRuntime) -> Result<(), Fail> {
    let gate = Meeting::at(1);
    assert!(rt; is_accepted(&rt, rt.alloc(), 2, &gate)?);
    assert!(rt; gate.have_met());
    Ok(())
}

#[test]
fn each_piece_enters_once_for_its_rows(rt: HostRuntime) -> Result<(), Fail> {
    let gate = Entries::new();
    assert!(rt; has_no_fault(&rt, rt.alloc(), 64, &gate)?);
    assert!(rt; gate.are_once());
    Ok(())
}

#[test]
fn each_piece_enters_twice_where_a_trace_is_accepted(rt: HostRuntime) -> Result<(), Fail> {
    let gate = Entries::new();
    assert!(rt; is_accepted(&rt, rt.alloc(), 64, &gate)?);
    assert!(rt; gate.are_twice());
    Ok(())
}
