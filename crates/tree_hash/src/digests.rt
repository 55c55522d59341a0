ghost use Rattle.std.specs.Prelude.{◌≡◌, ◌++◌, All, IfOk, IfSome};
ghost use Rattle.block_tree.specs.Trees.{input_of_batches, input_of_dyn, input_of_two, tree_digest};
ghost use Rattle.block_tree.specs.TreeView.{tree_of};
ghost use Rattle.vm_field.specs.Sponge.{digest_of_input, hashed};
ghost use Rattle.vm_ops.specs.Codes.{code_of};
ghost use Rattle.tree_hash.specs.Digests.{IsDigest};

use crate::sponge::digest_of;
use block_tree::Tree;
use op_pack::Batches;
use perm_memo::Permutations;
use std::alloc::Global;
use std::collections::BTreeMap;
use vm_field::{Felt, Memory, Word};
use vm_ops::{Op, opcode};

// Blocks that were hashed under a domain, and their digest.
#[derive(Drop)]
struct Known {
    domain: Felt,
    blocks: Vec<[Felt; 8]>,
    digest: Word,
}

/// The digests that were computed, so that none is computed twice, and the permutations that were
/// computed for them.
#[derive(Drop)]
pub struct Digests {
    permutations: Permutations,
    known: Vec<Known>,
    // where a digest stands, by its input's fingerprint; another input may have the same one
    places: BTreeMap<u64, usize>,
    ghost known_right: { All (IsDigest permutations) known.items },
}

impl Digests {
    /// No digests yet. It allocates nothing.
    pub fn new(alloc: Global, permutations: Permutations) -> Digests
        ensures { result.permutations ≡ permutations }
    {
        Digests {
            permutations,
            known: Vec::new(alloc),
            places: BTreeMap::new(alloc),
        }
    }

    /// The permutations, with those that were computed.
    pub fn into_permutations(self) -> Permutations
        ensures { result ≡ self.permutations }
    {
        self.permutations
    }

    /// The digest of a tree. A block that was hashed before, in this tree or in an earlier one, is
    /// looked up. The only error is that memory is refused; the same tree may then be asked again.
    #[tactic(auto, using(block_tree::proofs::ViewLemmas::views))]
    pub fn of_tree(&mut self, alloc: Global, tree: &Tree) -> Result<Word, Memory>
        ensures digest { IfOk result (λ digest. digest ≡ tree_digest self.old.permutations (tree_of tree.now)) }
        ensures permutations { self.new.permutations ≡ self.old.permutations }
    {
        Ok(match tree {
            Tree::Opaque(digest) => *digest,
            Tree::Span(batches) => self.of_span(alloc, batches)?,
            Tree::Join(first, second) => {
                let first = self.of_tree(alloc, first)?;
                let second = self.of_tree(alloc, second)?;
                self.of_two(alloc, Op::Join, first, second)?
            }
            Tree::Split(on_one, on_zero) => {
                let on_one = self.of_tree(alloc, on_one)?;
                let on_zero = self.of_tree(alloc, on_zero)?;
                self.of_two(alloc, Op::Split, on_one, on_zero)?
            }
            Tree::Loop(body) => {
                let body = self.of_tree(alloc, body)?;
                self.of_two(alloc, Op::Loop, body, Word::ZERO)?
            }
            Tree::Call(callee) => {
                let callee = self.of_tree(alloc, callee)?;
                self.of_two(alloc, Op::Call, callee, Word::ZERO)?
            }
            Tree::Syscall(callee) => {
                let callee = self.of_tree(alloc, callee)?;
                self.of_two(alloc, Op::Syscall, callee, Word::ZERO)?
            }
            Tree::Dyn(_) => self.of_dynamic(alloc)?,
        })
    }

    // The digest of a span.
    pub(crate) fn of_span(&mut self, alloc: Global, batches: &Batches) -> Result<Word, Memory>
        ensures digest { IfOk result (λ digest. digest ≡ digest_of_input self.old.permutations (input_of_batches batches.now)) }
        ensures permutations { self.new.permutations ≡ self.old.permutations }
    {
        self.of(alloc, Felt::ZERO, batches.as_slice())
    }

    // The digest of a block whose start is this operation, with children of these digests.
    pub(crate) fn of_two(
        &mut self,
        alloc: Global,
        start: Op,
        first: Word,
        second: Word,
    ) -> Result<Word, Memory>
        ensures digest { IfOk result (λ digest. digest ≡ digest_of_input self.old.permutations (input_of_two start first second)) }
        ensures permutations { self.new.permutations ≡ self.old.permutations }
    {
        self.of(alloc, domain_of(start), &[pair(&first, &second)])
    }

    // The digest of a dynamic block, whatever its targets are.
    pub(crate) fn of_dynamic(&mut self, alloc: Global) -> Result<Word, Memory>
        ensures digest { IfOk result (λ digest. digest ≡ digest_of_input self.old.permutations input_of_dyn) }
        ensures permutations { self.new.permutations ≡ self.old.permutations }
    {
        let domain = Felt::reduced(u128::from(opcode(Op::Dyn)));
        self.of(alloc, domain, &[pair(&Word::ZERO, &Word::ZERO)])
    }

    // The digest of blocks of eight elements under a domain.
    fn of(&mut self, alloc: Global, domain: Felt, blocks: &[[Felt; 8]]) -> Result<Word, Memory>
        ensures digest { IfOk result (λ digest. digest ≡ hashed self.old.permutations domain blocks.now) }
        ensures permutations { self.new.permutations ≡ self.old.permutations }
    {
        let fingerprint = fingerprint(domain, blocks);
        if let Some(digest) = self.known_digest(fingerprint, domain, blocks) {
            return Ok(digest);
        }
        let digest = digest_of(&mut self.permutations, domain, blocks);
        let blocks = Vec::from_slice(alloc, blocks)?;
        self.places.insert(fingerprint, self.known.len())?;
        self.known.push(Known {
            domain,
            blocks,
            digest,
        })?;
        Ok(digest)
    }

    // The digest, if it was computed.
    fn known_digest(&self, fingerprint: u64, domain: Felt, blocks: &[[Felt; 8]]) -> Option<Word>
        ensures { IfSome result (λ digest. digest ≡ hashed self.now.permutations domain blocks.now) }
    {
        let known = self.known.get(*self.places.get(&fingerprint)?)?;
        if known.domain == domain && known.blocks.as_slice() == blocks {
            Some(known.digest)
        } else {
            None
        }
    }
}

/// One word and then the other.
pub fn pair(first: &Word, second: &Word) -> [Felt; 8]
    ensures { result ≡ first.now ++ second.now }
{
    let [a, b, c, d] = first.elements();
    let [e, f, g, h] = second.elements();
    [a, b, c, d, e, f, g, h]
}

// The domain of a block whose start is this operation.
fn domain_of(start: Op) -> Felt
    ensures { result ≡ code_of start }
{
    Felt::reduced(u128::from(opcode(start)))
}

// A number that tells inputs apart, mostly.
fn fingerprint(domain: Felt, blocks: &[[Felt; 8]]) -> u64 {
    let mut fingerprint = domain.value();
    for block in blocks {
        for element in block {
            fingerprint = (fingerprint.rotate_left(5) ^ element.value()).wrapping_mul(
                0x517c_c1b7_2722_0a95,
            );
        }
    }
    fingerprint
}
