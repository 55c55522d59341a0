ghost use Rattle.std.specs.Prelude.{◌≡◌, ◌∷◌, [], drop, length, slice_get, OnOk};
ghost use Rattle.std.specs.Option.{option_map};
ghost use Rattle.masm_places.specs.Pending.{level_of, levels_in};

use crate::level::Level;
use std::alloc::Global;
use vm_field::Memory;

/// Levels, the innermost first.
#[derive(Drop)]
pub struct Levels<'a> {
    // The innermost is last.
    items: Vec<Level<'a>>,
}

impl<'a> Levels<'a> {
    // No level. It allocates nothing.
    pub(crate) fn new(alloc: Global) -> Levels<'a>
        ensures { levels_in result ≡ [] }
    {
        Levels {
            items: Vec::new(alloc),
        }
    }

    // A level inside the others.
    pub(crate) fn push(&mut self, level: Level<'a>) -> Result<(), Memory>
        ensures { OnOk result (levels_in self.new ≡ level_of level.entry ∷ levels_in self.old) }
    {
        self.items.push(level)?;
        Ok(())
    }

    // Leaves the innermost level.
    pub(crate) fn pop(&mut self)
        ensures { levels_in self.new ≡ drop 1 (levels_in self.old) }
    {
        let _level = self.items.pop();
    }

    // Puts a level in place of the innermost one.
    pub(crate) fn replace(&mut self, level: Level<'a>) -> Result<(), Memory>
        ensures { OnOk result (levels_in self.new ≡ level_of level.entry ∷ drop 1 (levels_in self.old)) }
    {
        self.pop();
        self.push(level)
    }

    // Leaves all levels.
    pub(crate) fn clear(&mut self)
        ensures { levels_in self.new ≡ [] }
    {
        self.items.clear();
    }

    // The innermost level.
    pub(crate) fn innermost(&self) -> Option<Level<'a>>
        ensures { option_map level_of result ≡ slice_get (levels_in self.now) 0 }
    {
        self.items.last().copied()
    }

    /// The level of a number, counted from 0 outwards.
    pub fn level(&self, number: usize) -> Option<Level<'a>>
        ensures { option_map level_of result ≡ slice_get (levels_in self.now) number }
    {
        let count = self.items.len();
        if number >= count {
            return None;
        }
        self.items.get(count - 1 - number).copied()
    }

    /// How many levels there are.
    pub fn len(&self) -> usize
        ensures { result ≡ length (levels_in self.now) }
    {
        self.items.len()
    }
}
