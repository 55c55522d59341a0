ghost use Rattle.std.specs.Prelude.{◌≡◌, ℕ, List, map, IfOk};
ghost use Rattle.std.specs.List.{find};
ghost use Rattle.std.specs.Option.{option_copied};
ghost use Rattle.std.specs.Str.{bytes_eq};
ghost use Rattle.masm_names.specs.Names.{place_at};
ghost use Rattle.masm_names.specs.Uses.{place_in};

use crate::extent::Extent;
use block_tree::Tree;
use masm_names::{Named, Names};
use std::alloc::Global;
use vm_field::{Bytes, Memory};

/// A procedure that a kernel exports, by its name, with its tree.
#[derive(Drop)]
pub struct KernelProc {
    pub name: Bytes,
    pub tree: Tree,
    /// How large the tree is.
    pub extent: Extent,
}

impl Named for KernelProc {
    ghost name = { λ p. p.name };

    fn name(&self) -> &[u8] {
        self.name.as_slice()
    }
}

/// What lies outside a source: the procedures that its kernel exports, found by their names.
#[derive(Drop)]
pub struct Outside<'a> {
    /// What the kernel exports, in order.
    pub exports: &'a [KernelProc],
    // The places of their names.
    names: Names,
    ghost indexed: { (name : List ℕ) → place_at names name ≡ place_in (map (λ p. p.name) exports.now) name },
}

impl<'a> Outside<'a> {
    /// What lies outside a source whose kernel exports these procedures.
    pub fn of(alloc: Global, exports: &'a [KernelProc]) -> Result<Outside<'a>, Memory>
        ensures { IfOk result (λ outside. outside.exports.now ≡ exports.now) }
    {
        let names = Names::of(alloc, exports)?;
        Ok(Outside { exports, names })
    }

    /// The kernel's first procedure of that name.
    pub fn first(&self, name: &Bytes) -> Option<&'a KernelProc>
        ensures { option_copied result ≡ find (λ p. bytes_eq p.name name.now) self.now.exports.now }
    {
        let place = self.names.place(name.as_slice())?;
        self.exports.get(place)
    }
}
