use super::{assembled, pairs};
use block_tree::Tree;
use masm_link::{AsmError, assembled_trees};
use std::alloc::{AllocError, Global};
use std::test::Fail;
use vm_field::Felt;

// Sources whose tree is one span, with the numbers of its first batch from the first on.
static SPANS: [(&str, [u64; 4]); 4] = [
    ("begin end", [0, 0, 0, 0]),
    ("begin push.2 push.3 add push.7 end", [145318597, 2, 3, 7]),
    ("begin push.0 end", [52, 0, 0, 0]),
    (
        "begin repeat.8 neg end push.5 end",
        [1134765260439810, 69, 5, 0],
    ),
];

// 73 NEG: nine in each of the eight groups of a batch, and one in the next batch.
static TWO_BATCHES: [[u64; 8]; 2] = [[145249953336295682; 8], [2, 0, 0, 0, 0, 0, 0, 0]];

// Trees by their spans' first groups, joins in brackets, and targets in square ones. ADD is 37, and two
// of them are 37 + 128 * 37.
static TREES: [(&str, &str); 5] = pairs! {
    "begin add while.true end add add while.true end end" => "((37 L0) (4773 L0))";
    "begin while.true end while.true add end while.true add add end end" => "((L0 L37) L4773)";
    "begin if.true add else end add end" => "(S(37 0) 37)";
    "proc.f add end begin call.f exec.f end" => "(C37 37)";
    "begin syscall.k repeat.2 add end end" => "(K37 4773)";
};

fn is_batch(batch: &[Felt; 8], numbers: &[u64]) -> bool {
    numbers
        .iter()
        .zip(batch.iter())
        .all(|(n, felt)| felt.value() == *n)
}

// Whether a tree is a span of so many batches, which begin with these numbers.
fn is_span_of(tree: &Tree, batches: &[&[u64]]) -> bool {
    let Tree::Span(found) = tree else {
        return false;
    };
    found.len() == batches.len()
        && found
            .as_slice()
            .iter()
            .zip(batches.iter())
            .all(|(batch, numbers)| is_batch(batch, numbers))
}

fn is_span(alloc: Global, source: &str, batches: &[&[u64]]) -> bool {
    match assembled(alloc, None, source.as_bytes()) {
        Ok(program) => is_span_of(&program.tree, batches) && program.exports.is_empty(),
        Err(_) => false,
    }
}

#[cycle(shapes)]
pub(super) fn shape(alloc: Global, tree: &Tree) -> Result<String, AllocError> {
    match tree {
        Tree::Opaque(_) => format!(in alloc; "?"),
        Tree::Span(batches) => {
            let group = batches
                .as_slice()
                .first()
                .map_or(0, |batch| batch[0].value());
            format!(in alloc; "{group}")
        }
        Tree::Join(a, b) => {
            let a = shape(alloc, a)?;
            let b = shape(alloc, b)?;
            format!(in alloc; "({a} {b})")
        }
        Tree::Split(a, b) => {
            let a = shape(alloc, a)?;
            let b = shape(alloc, b)?;
            format!(in alloc; "S({a} {b})")
        }
        Tree::Loop(a) => {
            let a = shape(alloc, a)?;
            format!(in alloc; "L{a}")
        }
        Tree::Call(a) => {
            let a = shape(alloc, a)?;
            format!(in alloc; "C{a}")
        }
        Tree::Syscall(a) => {
            let a = shape(alloc, a)?;
            format!(in alloc; "K{a}")
        }
        Tree::Dyn(targets) => {
            let inside = shapes(alloc, targets.as_slice())?;
            format!(in alloc; "D[{inside}]")
        }
    }
}

// Trees, each with a semicolon behind it.
#[cycle(shapes)]
fn shapes(alloc: Global, trees: &[Tree]) -> Result<String, AllocError> {
    let mut text = String::new(alloc);
    for tree in trees {
        let next = shape(alloc, tree)?;
        text.push_str(next.as_str())?;
        text.push_str(";")?;
    }
    Ok(text)
}

fn is_tree(alloc: Global, row: &(&str, &str)) -> Result<bool, AsmError> {
    let program = assembled(alloc, Some(b"export.k add end"), row.0.as_bytes())?;
    let text = shape(alloc, &program.tree)?;
    Ok(text.as_str() == row.1)
}

#[test]
fn packs_spans(rt: HostRuntime) -> Result<(), Fail> {
    assembled_trees();
    for row in &SPANS {
        assert!(rt; is_span(rt.alloc(), row.0, &[&row.1]), "{}", row.0);
    }
    Ok(())
}

#[test]
fn packs_two_batches(rt: HostRuntime) -> Result<(), Fail> {
    let [first, second] = &TWO_BATCHES;
    assert!(rt; is_span(rt.alloc(), "begin repeat.73 neg end end", &[first, second]));
    Ok(())
}

#[test]
fn joins_blocks(rt: HostRuntime) -> Result<(), Fail> {
    for row in &TREES {
        let is = is_tree(rt.alloc(), row).unwrap_or(false);
        assert!(rt; is, "{}", row.0);
    }
    Ok(())
}
