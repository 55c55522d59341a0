use super::{NO_CONSTANTS, assembled};
use block_tree::{Tree, digest};
use masm_link::AsmError;
use std::alloc::Global;
use std::test::Fail;
use vm_field::{Felt, Word};

// The first number of a batch of four PUSH, 69 + 128 * 69 and so on, whose immediates stand behind it.
const FOUR_PUSHES: u64 = 145842885;

// The first number of a batch of four PAD.
const FOUR_PADS: u64 = 109910580;

// Procedures, of which `f` is one whose digest has no zero among its elements.
static PROCEDURES: [&str; 6] = [
    "proc.f neg end",
    "proc.f.2 neg loc_store.1 end",
    "proc.g add end proc.f exec.g call.g while.true neg end end",
    "proc.g.3 procref.h end proc.h neg end proc.f procref.g call.g procref.h procref.g end",
    "proc.f syscall.k neg end",
    "proc.h procref.f procref.f exec.g end proc.g neg end proc.f exec.g call.g procref.g end",
];

// The tree between `begin` and `end`, behind these procedures.
fn tree_of(alloc: Global, procedures: &str, body: &str) -> Result<Tree, AsmError> {
    let mut source = String::from_str(alloc, procedures)?;
    source.push_str(" begin ")?;
    source.push_str(body)?;
    source.push_str(" end")?;
    let program = assembled(alloc, Some(b"export.k add end"), source.as_bytes())?;
    Ok(program.tree)
}

// The digest of the tree that a call of `f` runs.
fn called_digest(alloc: Global, procedures: &str) -> Result<Option<Word>, AsmError> {
    match &tree_of(alloc, procedures, "call.f")? {
        Tree::Call(callee) => Ok(Some(digest(&NO_CONSTANTS, callee))),
        _ => Ok(None),
    }
}

// Whether a tree is one batch of four PUSH, of these elements in their order.
fn pushes(tree: &Tree, word: Word) -> bool {
    let [a, b, c, d] = word.elements();
    let wanted = [
        Felt::reduced(u128::from(FOUR_PUSHES)),
        a,
        b,
        c,
        d,
        Felt::ZERO,
        Felt::ZERO,
        Felt::ZERO,
    ];
    match tree {
        Tree::Span(batches) => batches
            .as_slice()
            .first()
            .is_some_and(|batch| *batch == wanted),
        _ => false,
    }
}

fn is_referred(alloc: Global, procedures: &str) -> Result<bool, AsmError> {
    let Some(word) = called_digest(alloc, procedures)? else {
        return Ok(false);
    };
    let referred = tree_of(alloc, procedures, "procref.f")?;
    Ok(pushes(&referred, word))
}

#[test]
fn puts_the_digest_of_a_called_tree(rt: HostRuntime) -> Result<(), Fail> {
    for procedures in &PROCEDURES {
        let is = is_referred(rt.alloc(), procedures).unwrap_or(false);
        assert!(rt; is, "{procedures}");
    }
    Ok(())
}

fn is_padded(alloc: Global, source: &str) -> Result<bool, AsmError> {
    let program = assembled(alloc, None, source.as_bytes())?;
    match &program.tree {
        Tree::Span(batches) => Ok(
            batches
                .as_slice()
                .first()
                .is_some_and(|batch| batch[0].value() == FOUR_PADS),
        ),
        _ => Ok(false),
    }
}

// The digest of a span of one NOOP is four zeros where the constants are.
#[test]
fn puts_zeros(rt: HostRuntime) -> Result<(), Fail> {
    let is = is_padded(rt.alloc(), "proc.f end begin procref.f end").unwrap_or(false);
    assert!(rt; is);
    Ok(())
}
