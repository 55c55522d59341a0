ghost use Rattle.std.specs.Prelude.{◌≡◌, ◌+◌, ◌*◌, ◌/◌, ◌<◌, [], ◌∷◌, ◌++◌, length, map, take, drop, slice_index, slice_index_or, OnOk, OnErr};
ghost use Rattle.std.specs.List.{slice_set};
ghost use Rattle.vm_table.specs.Blocks.{blocks_for};
ghost use Rattle.vm_table.specs.Layout.{IsTable};
ghost use Rattle.vm_table.specs.Rows.{row_cells};

use crate::blocks::{
    Block, MOST_COLUMNS, ROWS, column_of_block, room_for_row, set_in_block, write_row,
};
use crate::view::{Row, RowPair};
use std::alloc::Global;
use std::marker::Model;
use vm_field::{Felt, Memory, known_elements};

/// A table of W columns, seen as the list of its rows. Rows lie in blocks of 256, in which a column's cells stand side by side.
#[derive(Drop)]
pub struct Table<const W: usize> {
    rows: usize,
    blocks: Vec<Block<W>>,
}

impl<const W: usize> Model for Table<W> {
    ghost use Rattle.std.specs.Prelude.{ℕ, List, ◌≡◌, length};
    ghost use Rattle.vm_table.specs.Blocks.{rows_in, blocks_for};
    ghost use Rattle.vm_table.specs.Layout.{IsHeld};

    ghost Value = { List (List ℕ) };

    ghost view = { λ t. rows_in W t.blocks.items t.rows };

    ghost invariant = { λ t. IsHeld W (rows_in W t.blocks.items t.rows) × (length t.blocks.items ≡ blocks_for t.rows) };
}

impl<const W: usize> Table<W> {
    /// The table with no row. It allocates nothing.
    pub fn new(alloc: Global) -> Table<W>
        ensures empty { result ≡ [] }
    {
        Table {
            rows: 0,
            blocks: Vec::new(alloc),
        }
    }

    /// How many rows there are. Each has W elements.
    pub fn rows(&self) -> usize
        ensures is { result ≡ length self.now }
        ensures shape { IsTable W self.now }
    {
        self.rows
    }

    /// Adds a row at the end. At `Memory` the table is as before.
    pub fn push_row(&mut self, row: &[Felt; W]) -> Result<(), Memory>
        ensures ok { OnOk result (self.new ≡ self.old ++ row.now ∷ []) }
        ensures err { OnErr result (self.new ≡ self.old) }
    {
        known_elements(row);
        if W > MOST_COLUMNS {
            return Err(Memory::Memory);
        }
        room_for_row(&mut self.blocks, self.rows)?;
        write_row(&mut self.blocks[self.rows / ROWS], self.rows % ROWS, row);
        self.rows += 1;
        Ok(())
    }

    /// Asks for the memory of that many further rows at once. The table stays as it is.
    pub fn reserve(&mut self, rows: usize) -> Result<(), Memory>
        ensures { self.new ≡ self.old }
    {
        self.blocks.reserve(rows / ROWS + 1)?;
        Ok(())
    }

    /// The row of this number.
    pub fn row(&self, i: usize) -> Row<'_, W>
        requires { i < length self.now }
        ensures cells { row_cells result ≡ slice_index_or self.now i [] }
    {
        Row::of(&self.blocks[i / ROWS], i % ROWS)
    }

    /// The row of this number and the next one.
    pub fn pair(&self, i: usize) -> RowPair<'_, W>
        requires { i + 1 < length self.now }
        ensures cur { row_cells result.cur ≡ slice_index_or self.now i [] }
        ensures next { row_cells result.next ≡ slice_index_or self.now (i + 1) [] }
    {
        let rows = self.rows();
        RowPair {
            cur: self.row(i),
            next: self.row(i + 1),
        }
    }

    /// How many blocks of 256 rows there are; the last one may have less.
    pub fn blocks(&self) -> usize
        ensures is { result ≡ blocks_for (length self.now) }
    {
        self.blocks.len()
    }

    /// The cells of a column in the rows of a block.
    pub fn column(&self, block: usize, column: usize) -> &[Felt]
        requires block { block < blocks_for (length self.now) }
        requires column { column < W }
        ensures is { result.now ≡ map (λ row. slice_index row column) (take 256 (drop (256 * block) self.now)) }
    {
        let count = (self.rows - ROWS * block).min(ROWS);
        column_of_block(&self.blocks[block], column, count)
    }

    /// Changes a cell, and no other.
    pub fn set_cell(&mut self, row: usize, column: usize, value: Felt)
        requires row { row < length self.old }
        requires column { column < W }
        ensures { self.new ≡ slice_set self.old row (slice_set (slice_index_or self.old row []) column value) }
    {
        let _ = value.value();
        set_in_block(&mut self.blocks[row / ROWS], row % ROWS, column, value);
    }
}

fn crosses<T: Send + Sync>() {}

/// Tables and their rows may be sent to other threads and read by several.
pub fn tables_cross<const W: usize>() {
    crosses::<Table<W>>();
    crosses::<Row<'static, W>>();
    crosses::<RowPair<'static, W>>();
}
