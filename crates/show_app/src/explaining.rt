//! The command `explain`: a trace is checked, and its first refusal told with what it speaks of.
ghost use Rattle.std.specs.Prelude.{◌≡◌, ◌≤◌, ◌++◌, codes, length, IfOk, Some};
ghost use Rattle.vm_field.specs.Limits.{most_name_bytes};
ghost use Rattle.rpo_hash.specs.Constants.{constants_of};
ghost use Rattle.statement.specs.Statements.{stated_of};
ghost use Rattle.air_kit.specs.Acceptance.{AreZero};
ghost use Rattle.air_kit.specs.Traces.{HasCounts, claim_of};
ghost use Rattle.checker.specs.declared.refusal.Refused.TheVariants as why;
ghost use Rattle.cmd_kit.specs.declared.outcome.Outcome.TheVariants as outcome;
ghost use Rattle.cmd_kit.specs.Outcomes.{EndsIn, SaysStatus, either};
ghost use Rattle.cmd_kit.specs.RefusalLines.{refused_line};
ghost use Rattle.vm_io.specs.Shelf.{ShelfState};
ghost use Rattle.show_app.specs.ShowSteps.{IsNoFault, explain_steps, explained_text, faulty_text, judging_steps, tuple_lines};

use crate::counting::append_counted;
use crate::refused_rows::append_refused_rows;
use air_kit::{Fault, Public, Trace};
use buses::Bus;
use checker::{Refused, Seed, check_buses, check_rows};
use cmd_kit::{Outcome, Status, answered, load_params, load_statement, load_trace, refused_line};
use show_constraints::append_bus;
use show_text::{append_accesses_beside, append_fault, append_tuple};
use std::alloc::Global;
use std::thread::Threads;
use vm_field::{Bytes, Felt, Memory};
use vm_io::{Gate, Shelf};

/// The files of `explain`.
#[derive(Clone, Copy)]
pub struct ExplainNames<'a> {
    pub params: &'a str,
    pub table: &'a str,
    pub statement: &'a str,
}

/// `explain`: reads the parameters, the table file and the statement, and tells why the trace is refused.
pub fn explain_files<R: Threads + Sync, F: Shelf, G: Gate>(
    rt: &R,
    alloc: Global,
    seed: Seed,
    shelf: &mut F,
    gate: &G,
    names: ExplainNames<'_>,
) -> Outcome
    requires params { length names.params.now ≤ most_name_bytes }
    requires table { length names.table.now ≤ most_name_bytes }
    requires statement { length names.statement.now ≤ most_name_bytes }
    ensures { EndsIn (Some (explain_steps names.entry.params.now names.entry.table.now names.entry.statement.now)) result
        (F.state shelf.old) (F.state shelf.new) }
{
    match read_and_explain(rt, alloc, seed, shelf, gate, names) {
        Ok(end) | Err(end) => end,
    }
}

// Reads the files, one after another, and checks the trace.
fn read_and_explain<R: Threads + Sync, F: Shelf, G: Gate>(
    rt: &R,
    alloc: Global,
    seed: Seed,
    shelf: &mut F,
    gate: &G,
    names: ExplainNames<'_>,
) -> Result<Outcome, Outcome>
    requires params { length names.params.now ≤ most_name_bytes }
    requires table { length names.table.now ≤ most_name_bytes }
    requires statement { length names.statement.now ≤ most_name_bytes }
    ensures { EndsIn (Some (explain_steps names.entry.params.now names.entry.table.now names.entry.statement.now)) (either result)
        (F.state shelf.old) (F.state shelf.new) }
{
    let params = load_params(alloc, shelf, names.params)?;
    let trace = load_trace(alloc, shelf, names.table)?;
    let statement = load_statement(alloc, shelf, names.statement)?;
    let public = Public { params, statement };
    Ok(explain(rt, alloc, seed, gate, public, trace))
}

// Tells the first entry that is not 0; where there is none, compares the buses.
fn explain<R: Threads + Sync, G: Gate>(
    rt: &R,
    alloc: Global,
    seed: Seed,
    gate: &G,
    public: Public,
    trace: Trace,
) -> Outcome
    requires { HasCounts trace }
    ensures { (s : ShelfState)
        → EndsIn (Some (judging_steps (constants_of public.params) trace (stated_of public.statement))) result s s }
{
    match check_rows(rt, &trace, &public, 1, gate) {
        Some(fault) => explain_fault(alloc, &public, &trace, fault),
        None => explain_buses(rt, alloc, seed, gate, &public, &trace),
    }
}

#[tactic(auto, using(cmd_kit::proofs::OutcomeLemmas::says_line))]
fn explain_fault(alloc: Global, public: &Public, trace: &Trace, fault: Fault) -> Outcome
    requires { HasCounts trace.now }
    ensures { SaysStatus result Status.Refused (faulty_text (claim_of public.now trace.now) trace.now fault) }
{
    answered(Status::Refused, fault_lines(alloc, public, trace, fault))
}

fn fault_lines(alloc: Global, public: &Public, trace: &Trace, fault: Fault) -> Result<Bytes, Memory>
    requires { HasCounts trace.now }
    ensures { IfOk result (λ text. text ≡ faulty_text (claim_of public.now trace.now) trace.now fault) }
{
    let mut text = refused_line(alloc, &Refused::Fault(fault))?;
    append_fault(&mut text, trace, &fault)?;
    append_refused_rows(&mut text, alloc, trace, public)?;
    Ok(text)
}

// Compares the buses of a trace whose entries are 0.
fn explain_buses<R: Threads + Sync, G: Gate>(
    rt: &R,
    alloc: Global,
    seed: Seed,
    gate: &G,
    public: &Public,
    trace: &Trace,
) -> Outcome
    requires counts { HasCounts trace.now }
    requires zero { AreZero (claim_of public.now trace.now) trace.now }
    ensures { (s : ShelfState)
        → EndsIn (Some (judging_steps (constants_of public.now.params) trace.now (stated_of public.now.statement))) result s s }
{
    match check_buses(rt, alloc, seed, trace, public, 1, gate) {
        None => accepted(alloc),
        Some(refused) => explain_refused(alloc, seed, public, trace, &refused),
    }
}

#[tactic(auto, using(cmd_kit::proofs::OutcomeLemmas::says_line))]
fn accepted(alloc: Global) -> Outcome
    ensures { SaysStatus result Status.Ok (codes "accepted\n") }
{
    answered(Status::Ok, Bytes::copied(alloc, b"accepted\n"))
}

// Tells the bus that is apart.
#[tactic(auto, using(cmd_kit::proofs::OutcomeLemmas::says_line))]
fn explain_refused(
    alloc: Global,
    seed: Seed,
    public: &Public,
    trace: &Trace,
    refused: &Refused,
) -> Outcome
    requires counts { HasCounts trace.now }
    requires zero { AreZero (claim_of public.now trace.now) trace.now }
    requires other { IsNoFault refused.now }
    ensures says { SaysStatus result Status.Refused (explained_text (claim_of public.now trace.now) trace.now refused.now) }
    ensures memory { refused.now ≡ why.Memory → result ≡ outcome.Memory }
{
    match refused {
        Refused::Fault(_) => unreachable!(),
        Refused::Bus { bus, tuple, .. } => answered(
            Status::Refused,
            bus_lines(alloc, seed, public, trace, refused, *bus, tuple.as_slice()),
        ),
        Refused::Memory => Outcome::Memory,
    }
}

fn bus_lines(
    alloc: Global,
    seed: Seed,
    public: &Public,
    trace: &Trace,
    refused: &Refused,
    bus: Bus,
    tuple: &[Felt],
) -> Result<Bytes, Memory>
    requires counts { HasCounts trace.now }
    requires zero { AreZero (claim_of public.now trace.now) trace.now }
    ensures { IfOk result (λ text. text
        ≡ refused_line refused.now ++ tuple_lines (claim_of public.now trace.now) trace.now bus tuple.now) }
{
    let mut text = refused_line(alloc, refused)?;
    append_bus(&mut text, bus)?;
    append_tuple(&mut text, bus, tuple)?;
    append_counted(&mut text, alloc, seed, trace, public, bus, tuple)?;
    append_accesses_beside(&mut text, trace, bus, tuple)?;
    Ok(text)
}
