use crate::cases::{ACCEPTED, APART, Answer, Case, FAULTS};
use crate::making::{are_within, public, trace};
use air_kit::{Fault, Public, Trace};
use bus_kit::Tuple;
use checker::{Refused, Seed, Valid, check, has_counts};
use std::alloc::Global;
use std::test::Fail;
use std::thread::Threads;
use vm_field::Memory;
use vm_io::OpenGate;

// In how many pieces each trace is checked. The least one has 54 rows.
static PIECES: [usize; 4] = [1, 2, 3, 64];

fn is_tuple(tuple: &Tuple, elements: &[u64]) -> bool {
    let found = tuple.as_slice();
    if found.len() != elements.len() {
        return false;
    }
    for i in 0..found.len() {
        if found[i].value() != elements[i] {
            return false;
        }
    }
    true
}

fn is_fault(found: &Fault, answer: &Answer) -> bool {
    let Answer::Fault(table, row, number, value) = answer else {
        return false;
    };
    let place = found.table == *table && found.row == *row && found.number == *number;
    place && found.value.value() == *value
}

fn is_answer(found: &Result<Valid, Refused>, answer: &Answer) -> bool {
    match found {
        Ok(valid) => matches!(answer, Answer::Accepted) && 0 < valid.trace().main.rows(),
        Err(Refused::Fault(fault)) => is_fault(fault, answer),
        Err(
            Refused::Bus {
                bus,
                tuple,
                asked,
                given,
            },
        ) => match answer {
            Answer::Bus(name, elements, wanted, had) => {
                bus == name && is_tuple(tuple, elements) && asked == wanted && given == had
            }
            Answer::Accepted | Answer::Fault(..) => false,
        },
        Err(Refused::Memory) => false,
    }
}

// Whether a case's trace has the cells that are changed, and is answered as the case says.
fn is_answered(
    rt: &(impl Threads + Sync),
    alloc: Global,
    trace: Trace,
    public: Public,
    pieces: usize,
    case: &Case,
) -> bool {
    if !are_within(&trace, case.changes) || !has_counts(&trace) || pieces < 1 || 64 < pieces {
        return false;
    }
    is_answer(
        &check(rt, alloc, Seed::new(0), trace, public, pieces, &OpenGate),
        &case.answer,
    )
}

fn answers(
    rt: &(impl Threads + Sync),
    alloc: Global,
    pieces: usize,
    case: &Case,
) -> Result<bool, Memory> {
    let run = case.run.run();
    let has_kernel = case.run.has_kernel();
    let public = public(alloc, &run, has_kernel)?;
    let trace = trace(alloc, &run, has_kernel, case.changes)?;
    Ok(is_answered(rt, alloc, trace, public, pieces, case))
}

// Whether each case is answered as it says, in whatever number of pieces.
fn answers_all(rt: &(impl Threads + Sync), alloc: Global, cases: &[Case]) -> Result<bool, Memory> {
    let mut all = true;
    for case in cases {
        for pieces in &PIECES {
            all = answers(rt, alloc, *pieces, case)? && all;
        }
    }
    Ok(all)
}

#[test]
fn traces_of_runs_are_accepted(rt: HostRuntime) -> Result<(), Fail> {
    assert!(rt; answers_all(&rt, rt.alloc(), &ACCEPTED)?);
    Ok(())
}

#[test]
fn each_group_of_constraints_has_its_fault(rt: HostRuntime) -> Result<(), Fail> {
    assert!(rt; answers_all(&rt, rt.alloc(), &FAULTS)?);
    Ok(())
}

#[test]
fn each_bus_is_compared(rt: HostRuntime) -> Result<(), Fail> {
    assert!(rt; answers_all(&rt, rt.alloc(), &APART)?);
    Ok(())
}
