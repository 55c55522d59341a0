ghost use Rattle.std.specs.Prelude.{◌≡◌, ℕ, ◌+◌, List, map, Some, None, IfOk, OnOk, OnErr, bytes_eq, if◌then◌else◌};
ghost use Rattle.std.specs.Option.{option_or};
ghost use Rattle.masm_tree.specs.Views.{source_of};
ghost use Rattle.masm_names.specs.Names.{place_at};
ghost use Rattle.masm_names.specs.Uses.{place_in, first_place};

use indexmap::IndexMap;
use masm_reading::Const;
use masm_tree::{Ast, Position, Proc};
use std::alloc::Global;
use vm_field::{Bytes, Memory};

/// What has a name.
pub trait Named: Drop {
    ghost name: { Self → List ℕ };

    fn name(&self) -> &[u8]
        ensures { result.now ≡ name self.now };
}

impl Named for Proc {
    ghost name = { λ p. p.name };

    fn name(&self) -> &[u8] {
        self.name.as_slice()
    }
}

impl Named for Const {
    ghost name = { λ c. c.name };

    fn name(&self) -> &[u8] {
        self.name.as_slice()
    }
}

impl Named for Bytes {
    ghost name = { λ bytes. bytes };

    fn name(&self) -> &[u8] {
        self.as_slice()
    }
}

/// What has a name and the place of its token.
pub trait Defined: Named {
    ghost use Rattle.masm_tree.specs.declared.tree.Position.{Position};

    ghost at: { Self → Position };

    fn at(&self) -> Position
        ensures { result ≡ at self.now };
}

impl Defined for Proc {
    ghost at = { λ p. record { line = p.line; column = p.column } };

    fn at(&self) -> Position {
        Position {
            line: self.line,
            column: self.column,
        }
    }
}

impl Defined for Const {
    ghost at = { λ c. record { line = c.line; column = c.column } };

    fn at(&self) -> Position {
        Position {
            line: self.line,
            column: self.column,
        }
    }
}

/// The place of each name in a list, which is its first one.
#[derive(Drop)]
pub struct Names {
    places: IndexMap<Vec<u8>, usize>,
}

impl Names {
    // No names. It allocates nothing.
    fn new(alloc: Global) -> Names
        ensures { (text : List ℕ) → place_at result text ≡ None }
    {
        Names {
            places: IndexMap::new(alloc),
        }
    }

    // Gives a name a place, unless it has one.
    fn add(&mut self, alloc: Global, name: &[u8], place: usize) -> Result<(), Memory>
        ensures { OnOk result ((text : List ℕ)
            → place_at self.new text
            ≡ option_or (place_at self.old text) (if bytes_eq name.now text then Some place else None)) }
    {
        if self.places.contains_key(name) {
            return Ok(());
        }
        let key = Vec::from_slice(alloc, name)?;
        self.places.insert(key, place)?;
        Ok(())
    }

    /// The places of these names.
    pub fn of<T: Named>(alloc: Global, items: &[T]) -> Result<Names, Memory>
        ensures { IfOk result (λ names. (text : List ℕ) → place_at names text ≡ place_in (map T.name items.now) text) }
    {
        let mut names = Names::new(alloc);
        for (place, item) in items.iter().enumerate() {
            names.add(alloc, item.name(), place)?;
        }
        Ok(names)
    }

    /// The place of a name.
    pub fn place(&self, name: &[u8]) -> Option<usize>
        ensures { result ≡ place_at self.now name.now }
    {
        self.places.get(name).copied()
    }
}

/// The places of the procedures' names.
pub fn procedure_names(alloc: Global, ast: &Ast) -> Result<Names, Memory>
    ensures { IfOk result (λ names. (name : List ℕ) → place_at names name ≡ first_place (source_of ast.now).procs name) }
{
    let names = Names::of(alloc, &ast.procs)?;
    Ok(names)
}
