ghost use Rattle.std.specs.Prelude.{◌≡◌, ℕ, ◌*◌, ◌^◌, ◌<◌, List, length, slice_index};
ghost use Rattle.vm_field.specs.Field.{prime};

use crate::blocks::{Block, cell_in_block};
use vm_field::Felt;

/// A row that can be read cell by cell, however it lies in memory.
pub trait View<const W: usize> {
    /// The row's elements, W of them, in the order of the columns.
    ghost cells: { Self → List ℕ };

    /// The row's element of this number.
    fn cell(&self, column: usize) -> Felt
        requires { column < W }
        ensures is { result ≡ slice_index (cells self.now) column }
        ensures below { result < prime }
        ensures wide { length (cells self.now) ≡ W };
}

/// A row of a table.
#[derive(Clone, Copy)]
pub struct Row<'a, const W: usize> {
    columns: &'a [[Felt; 264]; W],
    place: usize,
    ghost wide: { length columns.now ≡ W },
    ghost within: { place < 256 },
    ghost few: { W * 2112 < 2 ^ 63 },
}

impl<'a, const W: usize> Row<'a, W> {
    ghost use Rattle.vm_table.specs.Blocks.{block_row};
    ghost use Rattle.vm_table.specs.Rows.{row_cells};

    /// The row at this place of a block.
    #[tactic(auto, unfolding(crate::specs::Rows::row_cells))]
    pub(crate) fn of(columns: &'a Block<W>, place: usize) -> Row<'a, W>
        requires { place < 256 }
        ensures cells { row_cells result ≡ block_row W columns.entry.now place }
    {
        Row { columns, place }
    }
}

impl<'a, const W: usize> View<W> for Row<'a, W> {
    ghost use Rattle.vm_table.specs.Rows.{row_cells};

    ghost cells = { row_cells };

    #[tactic(auto, unfolding(crate::specs::Rows::row_cells))]
    fn cell(&self, column: usize) -> Felt {
        cell_in_block(self.columns, self.place, column)
    }
}

/// A row and the one after it.
#[derive(Clone, Copy)]
pub struct RowPair<'a, const W: usize> {
    pub cur: Row<'a, W>,
    pub next: Row<'a, W>,
}
