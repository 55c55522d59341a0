use block_tree::{
    Evidence, Export, Exports, Program, Tree, Trees, are_distinct, copy, cut_laws, cycle_laws,
    digest, dynamic, height, known_whole, log_laws, row_laws, run_laws, tree_laws, types_cross,
};
use op_pack::Batches;
use perm_memo::Permutations;
use rpo_hash::Params;
use std::alloc::Global;
use std::process::Abort;
use std::test::Fail;
use tree_hash::Digests;
use vm_field::{Bytes, Felt, Felts, Memory, Word, Words};

const NO_CONSTANTS: Params = Params {
    first: [[Felt::ZERO; 12]; 7],
    second: [[Felt::ZERO; 12]; 7],
};

// A tree by its number, how high it is, and its digest.
#[derive(Clone, Copy)]
struct Row {
    which: usize,
    height: u64,
    digest: [u64; 4],
}

static ROWS: [Row; 11] = [
    Row {
        which: 0,
        height: 1,
        digest: [0, 0, 0, 0],
    },
    Row {
        which: 1,
        height: 1,
        digest: [
            1602496096039007578,
            14394538172570549925,
            7103908571833552294,
            6698786428079884084,
        ],
    },
    Row {
        which: 2,
        height: 2,
        digest: [
            10055084670348323133,
            15235273848529312936,
            14371761098633777129,
            1837186362563950591,
        ],
    },
    Row {
        which: 3,
        height: 2,
        digest: [
            17820694923891009952,
            13520597719921705690,
            11839267977354424249,
            14319050019338165713,
        ],
    },
    Row {
        which: 4,
        height: 2,
        digest: [
            498915590816701343,
            13114252422012013574,
            13565306505162150458,
            10443985115042371681,
        ],
    },
    Row {
        which: 5,
        height: 2,
        digest: [
            15806251800515754480,
            11092461716958429256,
            16981076381850147799,
            14704115007679016445,
        ],
    },
    Row {
        which: 6,
        height: 2,
        digest: [
            12160867491543387756,
            2510038402971752574,
            12056013994842535039,
            17688564381731247302,
        ],
    },
    Row {
        which: 7,
        height: 3,
        digest: [
            14227932253729065637,
            8866155986519783377,
            3762475023854101577,
            10234094566374212418,
        ],
    },
    Row {
        which: 8,
        height: 1,
        digest: [
            16684169599729524335,
            15900862114931369809,
            9356279583612877890,
            7580913588315533889,
        ],
    },
    Row {
        which: 9,
        height: 4,
        digest: [
            16684169599729524335,
            15900862114931369809,
            9356279583612877890,
            7580913588315533889,
        ],
    },
    Row {
        which: 10,
        height: 5,
        digest: [
            9205513874276943882,
            841889069272053070,
            15080371814876700703,
            5975335895913031170,
        ],
    },
];

fn felt(number: u64) -> Felt {
    Felt::reduced(u128::from(number))
}

fn word(numbers: [u64; 4]) -> Word {
    let [a, b, c, d] = numbers;
    Word([felt(a), felt(b), felt(c), felt(d)])
}

fn batch(numbers: &[u64; 8]) -> [Felt; 8] {
    let mut batch = [Felt::ZERO; 8];
    for i in 0..8 {
        batch[i] = felt(numbers[i]);
    }
    batch
}

// A block of which only the digest is known.
fn opaque(alloc: Global, numbers: [u64; 4]) -> Result<Box<Tree>, Memory> {
    Ok(Box::new(alloc, Tree::Opaque(word(numbers)))?)
}

fn span(alloc: Global) -> Result<Tree, Memory> {
    let mut batches = Batches::of(alloc, batch(&[1, 2, 3, 4, 5, 6, 7, 8]))?;
    batches.push(batch(&[5, 6, 7, 8, 1, 2, 3, 4]))?;
    Ok(Tree::Span(batches))
}

// The tree of a number.
fn made(alloc: Global, which: usize) -> Result<Tree, Memory> {
    let a = [1, 2, 3, 4];
    let b = [5, 6, 7, 8];
    Ok(match which {
        0 => Tree::Span(Batches::of(alloc, [Felt::ZERO; 8])?),
        1 => span(alloc)?,
        2 => Tree::Join(opaque(alloc, a)?, opaque(alloc, b)?),
        3 => Tree::Split(opaque(alloc, a)?, opaque(alloc, b)?),
        4 => Tree::Loop(opaque(alloc, a)?),
        5 => Tree::Call(opaque(alloc, a)?),
        6 => Tree::Syscall(opaque(alloc, a)?),
        7 => spans_and_loop(alloc)?,
        8 => dynamic(Trees::new(alloc)),
        9 => with_targets(alloc)?,
        _ => Tree::Join(
            Box::new(alloc, with_targets(alloc)?)?,
            Box::new(alloc, dynamic(Trees::new(alloc)))?,
        ),
    })
}

fn spans_and_loop(alloc: Global) -> Result<Tree, Memory> {
    Ok(Tree::Join(
        Box::new(alloc, span(alloc)?)?,
        Box::new(alloc, Tree::Loop(opaque(alloc, [1, 2, 3, 4])?))?,
    ))
}

// A dynamic block with two targets, of which the second is the higher.
fn with_targets(alloc: Global) -> Result<Tree, Memory> {
    let mut targets = Trees::new(alloc);
    targets.push(span(alloc)?)?;
    targets.push(spans_and_loop(alloc)?)?;
    Ok(dynamic(targets))
}

fn is_as(tree: &Tree, row: &Row) -> bool {
    known_whole(tree);
    height(tree) == row.height && digest(&NO_CONSTANTS, tree) == word(row.digest)
}

// Whether the tree of a row and its copy are as the row says.
fn is_met(alloc: Global, row: &Row) -> Result<bool, Memory> {
    let tree = made(alloc, row.which)?;
    let same = copy(alloc, &tree)?;
    Ok(is_as(&tree, row) && is_as(&same, row))
}

fn are_met(rt: &impl Abort, alloc: Global, rows: &[Row]) -> Result<(), Memory> {
    for row in rows {
        assert!(rt; is_met(alloc, row)?);
    }
    Ok(())
}

#[test]
fn hashes_and_copies_trees(rt: HostRuntime) -> Result<(), Fail> {
    Ok(are_met(&rt, rt.alloc(), &ROWS)?)
}

// Whether the trees of the rows, hashed one after another, have the digests that the rows say.
fn are_hashed(alloc: Global, permutations: Permutations, rows: &[Row]) -> Result<bool, Memory> {
    let mut digests = Digests::new(alloc, permutations);
    for row in rows {
        let tree = made(alloc, row.which)?;
        if digests.of_tree(alloc, &tree)? != word(row.digest) {
            return Ok(false);
        }
    }
    Ok(*digests.into_permutations().params() == NO_CONSTANTS)
}

#[test]
fn hashes_trees_with_equal_blocks(rt: HostRuntime) -> Result<(), Fail> {
    let alloc = rt.alloc();
    let kept = Permutations::new(alloc, &NO_CONSTANTS);
    let not_kept = Permutations::keeping_none(alloc, &NO_CONSTANTS);
    assert!(rt; are_hashed(alloc, kept, &ROWS)?);
    assert!(rt; are_hashed(alloc, not_kept, &ROWS)?);
    Ok(())
}

#[test]
fn tells_words_apart(rt: HostRuntime) {
    let (a, b) = (word([1, 0, 0, 0]), word([0, 0, 0, 1]));
    assert!(rt; are_distinct(&[]));
    assert!(rt; are_distinct(&[a, b]));
    assert!(rt; !are_distinct(&[a, b, a]));
}

fn exported(alloc: Global, digest: Word) -> Result<Exports, Memory> {
    let mut exports = Exports::new(alloc);
    exports.push(Export {
        name: Bytes::copied(alloc, b"bump")?,
        digest,
    })?;
    Ok(exports)
}

fn is_bump(exports: &Exports, digest: Word) -> bool {
    match exports.as_slice().first() {
        Some(export) => export.digest == digest && export.name.as_slice() == b"bump".as_slice(),
        None => false,
    }
}

#[test]
fn keeps_programs(rt: HostRuntime) -> Result<(), Fail> {
    let alloc = rt.alloc();
    let one = word([1, 0, 0, 0]);
    let kernel = Words::new(alloc);
    assert!(rt; are_distinct(kernel.as_slice()));
    let program = Program::new(Tree::Opaque(one), kernel, exported(alloc, one)?);
    assert!(rt; is_bump(&program.exports, one));
    let run = Evidence::Run {
        cycles: 3,
        tree: program.tree,
        tape: Felts::new(alloc),
    };
    assert!(rt; matches!(run, Evidence::Run { cycles: 3, .. }));
    Ok(())
}

#[test]
fn states_laws() {
    tree_laws();
    run_laws();
    cut_laws();
    cycle_laws();
    log_laws();
    row_laws();
    types_cross();
}
