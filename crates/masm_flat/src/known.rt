ghost use Rattle.std.specs.Prelude.{◌≡◌, Some, IfOk};
ghost use Rattle.block_tree.specs.TreeView.{tree_of};
ghost use Rattle.masm_flat.specs.KnownLists.{tree_at, digest_at, dispatch_in};
ghost use Rattle.masm_names.specs.Names.{place_at};

use crate::outside::Outside;
use block_tree::{Tree, copy};
use masm_names::Names;
use std::alloc::Global;
use vm_field::{Bytes, Memory, Word};

// The digest of this number, and zeros where there is none.
fn numbered(digests: &[Word], number: usize) -> Word
    ensures { result ≡ digest_at digests.now (Some number) }
{
    match digests.get(number) {
        Some(digest) => *digest,
        None => Word::ZERO,
    }
}

/// Where the names lead that a body uses.
#[derive(Clone, Copy)]
pub struct Scope<'a> {
    /// The places of the names of the source's procedures.
    pub names: &'a Names,
    /// What lies outside the source.
    pub outside: &'a Outside<'a>,
    /// The digests of the procedures' trees that are known, by their places.
    pub digests: &'a [Word],
    /// The tree of a dynexec, once it is made.
    pub dispatch: &'a Option<Tree>,
}

impl<'a> Scope<'a> {
    /// A copy of the tree of the kernel's first procedure of that name. Where there is none it is
    /// a block of which only a digest of zeros is known.
    pub fn exported(&self, alloc: Global, name: &Bytes) -> Result<Tree, Memory>
        ensures { IfOk result (λ tree. tree_of tree ≡ tree_at self.now.outside.now.exports.now name.now) }
    {
        match self.outside.first(name) {
            Some(proc) => copy(alloc, &proc.tree),
            None => Ok(Tree::Opaque(Word::ZERO)),
        }
    }

    /// A copy of the tree of a dynexec. Before it is made it is a block of which only a digest of zeros
    /// is known.
    pub fn dispatched(&self, alloc: Global) -> Result<Tree, Memory>
        ensures { IfOk result (λ tree. tree_of tree ≡ dispatch_in self.now.dispatch.now) }
    {
        match self.dispatch {
            Some(tree) => copy(alloc, tree),
            None => Ok(Tree::Opaque(Word::ZERO)),
        }
    }

    /// The digest of the tree of the source's first procedure of that name, and zeros where none is
    /// known.
    pub fn digest(&self, name: &Bytes) -> Word
        ensures { result ≡ digest_at self.now.digests.now (place_at self.now.names.now name.now) }
    {
        match self.names.place(name.as_slice()) {
            Some(place) => numbered(self.digests, place),
            None => Word::ZERO,
        }
    }
}
