ghost use Rattle.std.specs.Prelude.{◌≡◌, ℕ, List, map, None, IfOk};
ghost use Rattle.std.specs.Option.{option_map};
ghost use Rattle.masm_tree.specs.Views.{procedure_of};
ghost use Rattle.masm_names.specs.Names.{place_at};
ghost use Rattle.masm_names.specs.Uses.{first_place};
ghost use Rattle.masm_places.specs.Origins.{kernel_procedures, origin_at};

use crate::origin::Origin;
use masm_names::{Names, procedure_names};
use masm_tree::{Ast, Proc};
use std::alloc::Global;
use vm_field::{Bytes, Memory};

/// A source and its kernel as syntax trees, whose procedures are found by their names.
#[derive(Drop)]
pub struct Sources<'a> {
    program: &'a [Proc],
    // How many of these are the source's own. Those behind are the library's.
    own: usize,
    main: Option<&'a Proc>,
    kernel: &'a [Proc],
    program_names: Names,
    kernel_names: Names,
    ghost program_places: { (name : List ℕ) → place_at program_names name ≡ first_place (map procedure_of program.now) name },
    ghost kernel_places: { (name : List ℕ) → place_at kernel_names name ≡ first_place (map procedure_of kernel.now) name },
}

// A procedure, and where it stands.
#[derive(Clone, Copy, Drop)]
pub(crate) struct Found<'a> {
    pub origin: Origin,
    pub proc: &'a Proc,
}

// Where a procedure of the program stands, by its place.
fn origin_at(own: usize, place: usize) -> Origin
    ensures { result ≡ origin_at own place }
{
    if place < own {
        Origin::Program
    } else {
        Origin::Library
    }
}

impl<'a> Sources<'a> {
    ghost use Rattle.masm_places.specs.Indexed.{texts_in};
    ghost use Rattle.masm_places.specs.declared.origin.Origin.TheVariants.{Kernel};
    ghost use Rattle.masm_places.specs.Texts.{at_place, found, found_in, found_in_kernel, found_in_program, found_main, texts_of};

    /// The trees of a source and of its kernel. The source's first procedures are its own, so many of
    /// them, and those behind are the library's.
    pub fn new(
        alloc: Global,
        program: &'a Ast,
        own: usize,
        kernel: Option<&'a Ast>,
    ) -> Result<Sources<'a>, Memory>
        ensures { IfOk result (λ sources. texts_in sources ≡ texts_of program.entry.now own kernel.entry) }
    {
        let program_names = procedure_names(alloc, program)?;
        let kernel_names = kernel_places(alloc, kernel)?;
        let kernel = procedures(kernel);
        Ok(Sources {
            program: program.procs.as_slice(),
            own,
            main: program.main.as_ref(),
            kernel,
            program_names,
            kernel_names,
        })
    }

    // What a name means to exec and call, by where it stands.
    pub(crate) fn find(&self, origin: Origin, name: &Bytes) -> Option<Found<'a>>
        ensures { option_map found_in result ≡ found (texts_in self.now) origin name.now }
    {
        match origin {
            Origin::Program => self.find_in_program(name),
            Origin::Library => self.find_in_program(name),
            Origin::Kernel => self.find_in_kernel(name),
        }
    }

    fn find_in_program(&self, name: &Bytes) -> Option<Found<'a>>
        ensures { option_map found_in result ≡ found_in_program (texts_in self.now) name.now }
    {
        match self.program_names.place(name.as_slice()) {
            Some(place) => self.program_at(place),
            None => None,
        }
    }

    fn program_at(&self, place: usize) -> Option<Found<'a>>
        ensures { option_map found_in result ≡ at_place (origin_at self.now.own) (texts_in self.now).program place }
    {
        match self.program.get(place) {
            Some(proc) => Some(Found {
                origin: origin_at(self.own, place),
                proc,
            }),
            None => None,
        }
    }

    // What a name means to syscall, and inside the kernel.
    pub(crate) fn find_in_kernel(&self, name: &Bytes) -> Option<Found<'a>>
        ensures { option_map found_in result ≡ found_in_kernel (texts_in self.now) name.now }
    {
        match self.kernel_names.place(name.as_slice()) {
            Some(place) => self.kernel_at(place),
            None => None,
        }
    }

    fn kernel_at(&self, place: usize) -> Option<Found<'a>>
        ensures { option_map found_in result ≡ at_place (λ place. Kernel) (texts_in self.now).kernel place }
    {
        match self.kernel.get(place) {
            Some(proc) => Some(Found {
                origin: Origin::Kernel,
                proc,
            }),
            None => None,
        }
    }

    // The body between begin and end.
    pub(crate) fn main(&self) -> Option<Found<'a>>
        ensures { option_map found_in result ≡ found_main (texts_in self.now) }
    {
        match self.main {
            Some(proc) => Some(Found {
                origin: Origin::Program,
                proc,
            }),
            None => None,
        }
    }
}

// The procedures of a kernel, none where there is no kernel.
fn procedures<'a>(kernel: Option<&'a Ast>) -> &'a [Proc]
    ensures { map procedure_of result.now ≡ kernel_procedures kernel.entry }
{
    match kernel {
        Some(ast) => ast.procs.as_slice(),
        None => &[],
    }
}

// The places of their names.
fn kernel_places(alloc: Global, kernel: Option<&Ast>) -> Result<Names, Memory>
    ensures { IfOk result (λ names. (name : List ℕ) → place_at names name ≡ first_place (kernel_procedures kernel.entry) name) }
{
    match kernel {
        Some(ast) => procedure_names(alloc, ast),
        None => no_places(alloc),
    }
}

fn no_places(alloc: Global) -> Result<Names, Memory>
    ensures { IfOk result (λ names. (name : List ℕ) → place_at names name ≡ None) }
{
    let procs: &[Proc] = &[];
    Names::of(alloc, procs)
}
