use block_tree::{Program, digest};
use machine_cycles::Stop;
use masm_lex::MAX_SOURCE;
use masm_link::{AsmError, assemble};
use merkle_lib::{Path, Step, inputs, program, root_of, types_cross, walk_laws};
use processor::{Run, execute};
use rpo_hash::Params;
use std::alloc::Global;
use std::test::Fail;
use vm_field::{Felt, Memory, Word};
use vm_ops::Cause;

// Constants that differ from one another; the roots below were computed under them by the script
// `examples/traces/rpo.py`, which uses nothing of the program.
fn params() -> Params {
    let mut params = Params {
        first: [[Felt::ZERO; 12]; 7],
        second: [[Felt::ZERO; 12]; 7],
    };
    for k in 0..7 {
        for i in 0..12 {
            let number = 1000 * k as u128 + 10 * i as u128;
            params.first[k][i] = Felt::reduced(number + 1);
            params.second[k][i] = Felt::reduced(number + 2);
        }
    }
    params
}

fn word(numbers: &[u64; 4]) -> Word {
    let [a, b, c, d] = *numbers;
    Word([felt(a), felt(b), felt(c), felt(d)])
}

fn felt(number: u64) -> Felt {
    Felt::reduced(u128::from(number))
}

static LEAF: [u64; 4] = [1, 2, 3, 4];

// The siblings from the leaf up, each with its side.
static STEPS: [([u64; 4], bool); 2] = [
    ([5, 6, 7, 8], false),
    ([18446744069414584320, 0, 18446744069414584319, 9], true),
];

// To which root one step leads, and to which both do.
static ROOTS: [[u64; 4]; 2] = [
    [
        2572272029449138171,
        8177336529405802629,
        12040161411105524410,
        2205749484700769116,
    ],
    [
        13453523580890212511,
        6985066086804164706,
        17980479189843424195,
        38477761506100313,
    ],
];

// The path of the first so many steps.
fn path(alloc: Global, count: usize) -> Result<Path, Memory> {
    let mut path = Path::new(alloc);
    for (sibling, bit) in STEPS.iter().take(count) {
        path.push(Step {
            sibling: word(sibling),
            bit: *bit,
        })?;
    }
    Ok(path)
}

// The run of the program of this depth.
fn walk(alloc: Global, depth: u32, leaf: &Word, root: &Word, path: &Path) -> Result<Run, Stop> {
    if depth < 1 || depth > 64 || path.as_slice().len() > 64 {
        return Err(Stop::OutOfCycles);
    }
    let program = program(alloc, depth)?;
    let inputs = inputs(alloc, leaf, root, path)?;
    execute(alloc, &params(), &program, &inputs, 10000)
}

fn traps(run: Result<Run, Stop>, why: Cause) -> bool {
    match run {
        Err(Stop::Trap { cause, .. }) => cause == why,
        _ => false,
    }
}

#[test]
fn paths_lead_to_their_roots(rt: HostRuntime) -> Result<(), Fail> {
    for count in 1..3 {
        let path = path(rt.alloc(), count)?;
        let root = root_of(&params(), &word(&LEAF), &path);
        assert_eq!(&rt; root, word(&ROOTS[count - 1]));
    }
    Ok(())
}

#[test]
fn walks_end_at_their_roots(rt: HostRuntime) -> Result<(), Fail> {
    for count in 1..3 {
        let path = path(rt.alloc(), count)?;
        let run = walk(
            rt.alloc(),
            count as u32,
            &word(&LEAF),
            &word(&ROOTS[count - 1]),
            &path,
        )?;
        assert_eq!(&rt; run.state.advice_left(), 0);
    }
    Ok(())
}

// Another leaf, another root, or the root of one step more: the words at the end differ.
#[test]
fn walks_trap_elsewhere(rt: HostRuntime) -> Result<(), Fail> {
    let path = path(rt.alloc(), 1)?;
    let (leaf, root) = (word(&LEAF), word(&ROOTS[0]));
    let other = word(&[1, 2, 3, 5]);
    assert!(&rt;
        traps(
            walk(rt.alloc(), 1, &other, &root, &path),
            Cause::AssertFailed
        )
    );
    assert!(&rt;
        traps(
            walk(rt.alloc(), 1, &leaf, &word(&ROOTS[1]), &path),
            Cause::AssertFailed
        )
    );
    assert!(&rt; traps(walk(rt.alloc(), 2, &leaf, &root, &path), Cause::AdviceEmpty));
    Ok(())
}

// Each sibling of a path with one element changed, and each with the other side.
#[test]
fn walks_trap_at_other_siblings(rt: HostRuntime) -> Result<(), Fail> {
    for changed in 0..2 {
        for turned in [false, true] {
            let mut other = Path::new(rt.alloc());
            for (place, step) in path(rt.alloc(), 2)?.as_slice().iter().enumerate() {
                let mut step = *step;
                if place == changed && turned {
                    step.bit = !step.bit;
                }
                if place == changed && !turned {
                    step.sibling.0[2] = felt(70);
                }
                other.push(step)?;
            }
            let run = walk(rt.alloc(), 2, &word(&LEAF), &word(&ROOTS[1]), &other);
            assert!(&rt; traps(run, Cause::AssertFailed));
        }
    }
    Ok(())
}

static TEXTS: [(u32, &[u8]); 3] = [
    (
        1,
        b"begin repeat.1 padw adv_loadw adv_push.1 cswapw hmerge end assert_eqw end",
    ),
    (
        2,
        b"begin repeat.2 padw adv_loadw adv_push.1 cswapw hmerge end assert_eqw end",
    ),
    (
        64,
        b"begin repeat.64 padw adv_loadw adv_push.1 cswapw hmerge end assert_eqw end",
    ),
];

fn assembled(alloc: Global, source: &[u8]) -> Result<Program, AsmError> {
    if source.len() > MAX_SOURCE {
        return Err(AsmError::Memory);
    }
    assemble(alloc, &params(), source, None)
}

#[test]
fn programs_are_those_of_their_texts(rt: HostRuntime) -> Result<(), Fail> {
    for (depth, text) in TEXTS.iter() {
        if *depth < 1 || *depth > 64 {
            return Err("no depth of a program".into());
        }
        let (made, read) = (program(rt.alloc(), *depth)?, assembled(rt.alloc(), text)?);
        assert_eq!(&rt;
            digest(&params(), &made.tree),
            digest(&params(), &read.tree)
        );
    }
    Ok(())
}

#[test]
fn calls_the_laws(_rt: HostRuntime) {
    walk_laws();
    types_cross();
}
