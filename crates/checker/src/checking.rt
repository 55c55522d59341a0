ghost use Rattle.std.specs.Prelude.{◌≡◌, ◌≤◌, OnOk, IfOk, IfErr};
ghost use Rattle.air_kit.specs.Acceptance.{AreZero, IsAccepted};
ghost use Rattle.air_kit.specs.Traces.{HasCounts, claim_of};
ghost use Rattle.checker.specs.Refusals.{IsBusesAnswer, IsRefusal};

use crate::counting::count_all;
use crate::refusal::{Refused, first_apart};
use crate::rows::check_rows;
use crate::setting::Setting;
use air_kit::{Public, Trace};
use bus_kit::Seed;
use std::alloc::Global;
use std::thread::Threads;
use vm_io::Gate;

/// A trace that is accepted for what it was checked against, with tables of as many rows as they may have.
#[derive(Drop)]
pub struct Valid {
    trace: Trace,
    public: Public,
    ghost accepted: { IsAccepted public trace },
    ghost counts: { HasCounts trace },
}

impl Valid {
    /// The trace.
    pub fn trace(&self) -> &Trace
        ensures is { result.now ≡ self.now.trace }
        ensures accepted { IsAccepted self.now.public result.now }
        ensures counts { HasCounts result.now }
    {
        &self.trace
    }

    /// What it was checked against.
    pub fn public(&self) -> &Public
        ensures is { result.now ≡ self.now.public }
        ensures accepted { IsAccepted result.now self.now.trace }
    {
        &self.public
    }
}

/// Checks a trace: it is accepted exactly where each entry of each row is 0 and each bus has each tuple asked as often as given.
/// Else the answer is the first fault by table, row and number; where there is none, the first bus that is apart, with the least
/// tuple and both its counts. Memory is asked for only where no row has a fault. The rows are tested in so many pieces, of which
/// each goes through the gate, and where no row has a fault the tuples are counted in as many pieces, of which each has its share of each
/// table and goes through the gate again. The tuples' counts are hashed from the seed. No answer depends on the number of pieces or on the seed.
pub fn check<R: Threads + Sync, G: Gate>(
    rt: &R,
    alloc: Global,
    seed: Seed,
    trace: Trace,
    public: Public,
    pieces: usize,
    gate: &G,
) -> Result<Valid, Refused>
    requires counts { HasCounts trace }
    requires pieces { (1 ≤ pieces) × (pieces ≤ 64) }
    ensures ok { OnOk result (IsAccepted public trace) }
    ensures trace { IfOk result (λ valid. valid.trace ≡ trace) }
    ensures public { IfOk result (λ valid. valid.public ≡ public) }
    ensures err { IfErr result (IsRefusal public trace) }
{
    if let Some(fault) = check_rows(rt, &trace, &public, pieces, gate) {
        return Err(Refused::Fault(fault));
    }
    match check_buses(rt, alloc, seed, &trace, &public, pieces, gate) {
        None => Ok(Valid { trace, public }),
        Some(refused) => Err(refused),
    }
}

/// The second half of `check`: why the buses refuse a trace of which no row has a fault, the first bus that is apart with the least
/// tuple and both its counts, or the want of memory; none where they do not. The tuples are counted in so many pieces, of which each goes
/// through the gate, and hashed from the seed. No answer but `Memory` depends on these.
pub fn check_buses<R: Threads + Sync, G: Gate>(
    rt: &R,
    alloc: Global,
    seed: Seed,
    trace: &Trace,
    public: &Public,
    pieces: usize,
    gate: &G,
) -> Option<Refused>
    requires counts { HasCounts trace.now }
    requires pieces { (1 ≤ pieces) × (pieces ≤ 64) }
    requires zero { AreZero (claim_of public.now trace.now) trace.now }
    ensures { IsBusesAnswer public.now trace.now result }
{
    // a table says of its rows that they are elements
    let _ = trace.main.rows();
    let setting = Setting::of(trace, public);
    let Some(tallies) = count_all(rt, alloc, seed, trace, &setting, pieces, gate) else {
        return Some(Refused::Memory);
    };
    match first_apart(&tallies) {
        Some(apart) => Some(apart.refused()),
        None => None,
    }
}
