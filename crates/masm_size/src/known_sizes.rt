ghost use Rattle.std.specs.Prelude.{◌≡◌};
ghost use Rattle.masm_size.specs.KnownSizes.{dispatch_extent, size_at, known_sizes_of};
ghost use Rattle.masm_size.specs.Sizes.{part_view};

use crate::shape::{Part, Size};
use crate::size::{NO_PARTS, beside, extent_of, over};
use masm_flat::{Extent, Outside};
use masm_names::Names;
use vm_field::Bytes;

/// What is known of procedures when the size of a body is taken.
#[derive(Clone, Copy)]
pub struct Sizes<'a> {
    /// The places of the names of the source's procedures.
    pub names: &'a Names,
    /// The sizes of their lists, in order; of one that is missing it is that of the empty list.
    pub sizes: &'a [Size],
    /// The extent of a dynexec's block. It may be any where the body has no dynexec.
    pub dispatch: Extent,
    /// What lies outside the source.
    pub outside: &'a Outside<'a>,
}

// The size of this number; it is that of the empty list where there is none.
fn numbered<'a>(sizes: &'a [Size], number: Option<usize>) -> Part<'a>
    ensures { part_view result ≡ size_at sizes.now number }
{
    if let Some(number) = number {
        if number < sizes.len() {
            return sizes[number].part();
        }
    }
    Part {
        operations: 0,
        outline: NO_PARTS,
        rises: &[],
    }
}

// A dynexec's block is one operation besides those of its targets.
const OWN_OPERATIONS: u32 = 1;

/// The extent of a dynexec's block, by the sizes of procedures' lists by their places and the places
/// of those that it may run: it counts all their operations and one more, each time that it stands
/// somewhere.
pub fn dispatch_extent(sizes: &[Size], targets: &[usize]) -> Extent
    ensures { result ≡ dispatch_extent sizes.now targets.now }
{
    let mut all = Extent {
        operations: OWN_OPERATIONS,
        height: 0,
    };
    for place in targets {
        all = beside(all, extent_of(numbered(sizes, Some(*place))));
    }
    over(all)
}

impl<'a> Sizes<'a> {
    /// The size of the list of the first procedure of that name. Where there is none it is that of
    /// the empty list.
    pub fn size(&self, name: &Bytes) -> Part<'a>
        ensures { part_view result ≡ (known_sizes_of self.now).size name.now }
    {
        numbered(self.sizes, self.names.place(name.as_slice()))
    }

    /// The extent of the tree of the kernel's first procedure of that name. Where there is none it
    /// is that of one operation.
    pub fn exported(&self, name: &Bytes) -> Extent
        ensures { result ≡ (known_sizes_of self.now).exported name.now }
    {
        match self.outside.first(name) {
            Some(proc) => proc.extent,
            None => Extent {
                operations: 1,
                height: 1,
            },
        }
    }
}
