ghost use Rattle.std.specs.Prelude.{◌≡◌, ◌<◌, ◌≤◌, [], ◌∷◌, ◌++◌, drop, length, take, slice_index, slice_set, OnOk, OnErr, IfOk};
ghost use Rattle.vm_field.specs.Field.{AreElements, prime};
ghost use Rattle.vm_field.specs.Machine.{filled_up};

use crate::aside::Aside;
use std::alloc::Global;
use std::marker::Model;
use std::mem;
use vm_field::{Felt, Felts, Memory, felt_at, known_elements};

/// How many cells operations see.
pub(crate) const VISIBLE: usize = 16;

// Cells, top first, of which there are at least sixteen.
#[derive(Drop)]
pub(crate) struct Stack {
    // the visible cells, top first
    top: [Felt; 16],
    // the cells below them, the highest last
    below: Vec<Felt>,
}

impl Model for Stack {
    ghost use Rattle.std.specs.Prelude.{◌≡◌, ℕ, List, ◌++◌, length, reverse};
    ghost use Rattle.vm_field.specs.Field.{AreElements};

    ghost Value = { List ℕ };

    ghost view = { λ a. a.top ++ reverse a.below.items };

    ghost invariant = { λ a. (length a.top ≡ 16) × AreElements a.top × AreElements a.below.items };
}

impl Stack {
    // These cells, and zeros below up to sixteen.
    pub fn holding(alloc: Global, cells: &[Felt]) -> Result<Stack, Memory>
        ensures cells { IfOk result (λ stack. stack ≡ filled_up cells.now) }
    {
        let mut top = [Felt::ZERO; VISIBLE];
        let visible = cells.len().min(VISIBLE);
        top[..visible].copy_from_slice(&cells[..visible]);
        let mut below = Vec::from_slice(alloc, &cells[visible..])?;
        below.reverse();
        known_elements(&top);
        known_elements(below.as_slice());
        Ok(Stack { top, below })
    }

    // The cells are elements.
    pub fn known(&self)
        ensures { AreElements self.now }
    {
        let _ = &self.top;
    }

    // How many cells there are.
    pub fn depth(&self) -> usize
        ensures is { result ≡ length self.now }
        ensures deep { 16 ≤ result }
    {
        VISIBLE + self.below.len()
    }

    // The cell of this number, where the top is 0.
    pub fn peek(&self, cell: usize) -> Felt
        requires { cell < length self.now }
        ensures is { result ≡ slice_index self.now cell }
        ensures below { result < prime }
    {
        if cell < VISIBLE {
            felt_at(&self.top, cell)
        } else {
            felt_at(
                self.below.as_slice(),
                self.below.len() - 1 - (cell - VISIBLE),
            )
        }
    }

    // The visible cells.
    pub fn visible(&self) -> &[Felt; 16]
        ensures is { result.now ≡ take 16 self.now }
        ensures below { AreElements result.now }
    {
        &self.top
    }

    // Puts a cell on top.
    pub fn push(&mut self, v: Felt) -> Result<(), Memory>
        ensures ok { OnOk result (self.new ≡ v ∷ self.old) }
        ensures err { OnErr result (self.new ≡ self.old) }
    {
        let lowest = self.top[VISIBLE - 1];
        let _ = lowest.value();
        self.below.push(lowest)?;
        self.top.rotate_right(1);
        self.top[0] = v;
        known_elements(&self.top);
        Ok(())
    }

    // Takes the top cell off, and lets a zero in below where fewer than sixteen cells are left.
    pub fn drop_top(&mut self)
        ensures { self.new ≡ filled_up (drop 1 self.old) }
    {
        let incoming = self.below.pop().unwrap_or(Felt::ZERO);
        self.top.rotate_left(1);
        self.top[VISIBLE - 1] = incoming;
        known_elements(&self.top);
    }

    // Overwrites a visible cell.
    pub fn set(&mut self, cell: usize, v: Felt)
        requires { cell < 16 }
        ensures { self.new ≡ slice_set self.old cell v }
    {
        self.top[cell] = v;
        known_elements(&self.top);
    }

    // Takes out the cells below the visible ones.
    pub fn hide(&mut self) -> Result<Felts, Memory>
        ensures hidden { IfOk result (λ hidden. hidden ≡ drop 16 self.old) }
        ensures ok { OnOk result (self.new ≡ take 16 self.old) }
        ensures err { OnErr result (self.new ≡ self.old) }
    {
        let mut hidden = self.below.split_off(0)?;
        hidden.reverse();
        Ok(Felts::from_vec(hidden))
    }

    // Puts cells below the visible ones, where there are no others.
    pub fn restore(&mut self, hidden: &[Felt]) -> Result<(), Memory>
        requires { length self.old ≡ 16 }
        ensures ok { OnOk result (self.new ≡ self.old ++ hidden.now) }
        ensures err { OnErr result (self.new ≡ self.old) }
    {
        known_elements(hidden);
        self.below.extend_from_slice(hidden)?;
        self.below.reverse();
        Ok(())
    }

    // Takes out the cells below the visible ones, as they are kept.
    pub fn set_aside(&mut self) -> Aside
        ensures aside { result ≡ drop 16 self.old }
        ensures left { self.new ≡ take 16 self.old }
    {
        let none = Vec::new(*self.below.allocator());
        Aside {
            below: mem::replace(&mut self.below, none),
        }
    }

    // Puts what was set aside below the visible cells, where there are no others.
    pub fn bring_back(&mut self, aside: Aside)
        requires { length self.old ≡ 16 }
        ensures { self.new ≡ self.old ++ aside }
    {
        self.below = aside.below;
    }
}
