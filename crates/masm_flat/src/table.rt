ghost use Rattle.std.specs.Prelude.{◌≡◌, ℕ, ◌+◌, ◌-◌, ◌<◌, ◌++◌, Some, nat_eq, length, slice_index, slice_set, IfOk, OnOk};
ghost use Rattle.masm_flat.specs.KnownLists.{list_at};
ghost use Rattle.masm_flat.specs.Taking.{Keeps, HasNoneLeft, TakesList};
ghost use Rattle.masm_flat.specs.Views.{pieces_of};
ghost use Rattle.masm_names.specs.UsedPlaces.{times_among};

use crate::appending::{add_copies, add_moved};
use crate::piece::Piece;
use std::alloc::{AllocError, Global};
use std::mem;
use vm_field::Memory;

/// The lists of a source's procedures, by their places. One that is used for the last time is taken, and not copied.
#[derive(Drop)]
pub struct Table {
    /// The lists. That of a procedure that has none yet, or whose list was taken, is empty.
    pub lists: Vec<Vec<Piece>>,
    // How many uses of each are left, the last of which takes it; none of one that stays.
    left: Vec<usize>,
}

impl Table {
    /// So many empty lists, all of which stay.
    pub fn new(alloc: Global, count: usize) -> Result<Table, AllocError>
        ensures count { IfOk result (λ table. length table.lists.items ≡ count) }
        ensures left { IfOk result (λ table. length table.left.items ≡ count) }
        ensures none { IfOk result HasNoneLeft }
    {
        let mut lists = Vec::new(alloc);
        for _ in 0..count {
            lists.push(Vec::new(alloc))?;
        }
        Ok(Table {
            lists,
            left: vec![in alloc; 0; count]?,
        })
    }

    /// Lets the lists at these places be taken when they are used as often as their places stand here.
    pub fn expect(&mut self, uses: &[usize])
        requires { HasNoneLeft self.old }
        ensures lists { self.new.lists ≡ self.old.lists }
        ensures left { (place : ℕ) → place < length self.old.left.items → slice_index self.new.left.items place ≡ times_among uses.now place }
        ensures count { length self.new.left.items ≡ length self.old.left.items }
    {
        for place in uses {
            if *place < self.left.len() {
                self.left[*place] += 1;
            }
        }
    }

    // Counts a use of a list, and says whether it is the last one, which takes the list.
    fn is_last(&mut self, place: usize) -> bool
        ensures last { result ≡ nat_eq (slice_index self.old.left.items place) 1 }
        ensures left { self.new.left.items ≡ slice_set self.old.left.items place (slice_index self.old.left.items place - 1) }
        ensures lists { self.new.lists ≡ self.old.lists }
    {
        if place >= self.left.len() {
            return false;
        }
        let left = self.left[place];
        self.left[place] = left.saturating_sub(1);
        left == 1
    }

    // Adds a list as it is used once more: a copy, or the list itself where no other use is left.
    pub(crate) fn add_list(
        &mut self,
        alloc: Global,
        place: usize,
        out: &mut Vec<Piece>,
    ) -> Result<(), Memory>
        ensures pieces { OnOk result (pieces_of out.new.items ≡ pieces_of out.old.items ++ list_at self.old.lists.items (Some place)) }
        ensures taken { OnOk result (TakesList place self.old self.new) }
    {
        let is_last = self.is_last(place);
        if place >= self.lists.len() {
            return Ok(());
        }
        if !is_last {
            return add_copies(alloc, &self.lists[place], out);
        }
        let list = mem::replace(&mut self.lists[place], Vec::new(alloc));
        add_moved(list, out)
    }
}
