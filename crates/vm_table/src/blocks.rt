ghost use Rattle.std.specs.Prelude.{◌≡◌, ◌≢◌, ℕ, ◌^◌, ◌*◌, ◌+◌, ◌<◌, ◌≤◌, List, [], length, take, slice_index, slice_index_or, vec_len, OnOk, OnErr};
ghost use Rattle.vm_field.specs.Field.{prime};
ghost use Rattle.vm_table.specs.Blocks.{block_row, blocks_for};

use vm_field::{Felt, Memory};

/// How many rows a block has.
pub const ROWS: usize = 256;

/// A block of more columns, of 2,112 bytes each, is longer than all that can be asked of an allocator.
pub const MOST_COLUMNS: usize = (1 << 63) / 2112;

/// A block of rows: W columns, whose cells stand side by side. Behind the cells of its 256 rows a column has eight more, a line of a
/// cache, which nothing reads: so the cells of one row do not lie a power of two apart, where few of them would fit into a cache.
pub type Block<const W: usize> = [[Felt; 264]; W];

/// Makes room for a row behind so many rows. At `Memory` the blocks are as before.
pub fn room_for_row<const W: usize>(blocks: &mut Vec<Block<W>>, rows: usize) -> Result<(), Memory>
    requires full { vec_len blocks.old ≡ blocks_for rows }
    ensures ok { OnOk result (vec_len blocks.new ≡ blocks_for (rows + 1)) }
    ensures same { OnOk result ((b : ℕ) → b < vec_len blocks.old → slice_index_or blocks.new.items b [] ≡ slice_index_or blocks.old.items b []) }
    ensures more { OnOk result (rows + 1 < 2 ^ 64) }
    ensures err { OnErr result (blocks.new.items ≡ blocks.old.items) }
{
    if rows == usize::MAX {
        return Err(Memory::Memory);
    }
    if rows % ROWS == 0 {
        add_block(blocks)?;
    }
    Ok(())
}

// Adds a block. A copy of the last one takes one pass over its memory, and a block of zeros two.
#[inline(never)]
fn add_block<const W: usize>(blocks: &mut Vec<Block<W>>) -> Result<(), Memory>
    requires { W * 2112 < 2 ^ 63 }
    ensures ok { OnOk result (vec_len blocks.new ≡ vec_len blocks.old + 1) }
    ensures same { OnOk result ((b : ℕ) → b < vec_len blocks.old → slice_index_or blocks.new.items b [] ≡ slice_index_or blocks.old.items b []) }
    ensures err { OnErr result (blocks.new.items ≡ blocks.old.items) }
{
    let count = blocks.len();
    if 0 < count {
        blocks.extend_from_within(count - 1..count)?;
    } else {
        blocks.push([[Felt::ZERO; 264]; W])?;
    }
    Ok(())
}

// A column has 264 cells. A run does nothing.
fn known_column(column: &[Felt; 264])
    ensures { length column.now ≡ 264 }
{}

/// Writes a row into a block.
pub fn write_row<const W: usize>(block: &mut Block<W>, place: usize, row: &[Felt; W])
    requires { place < 256 }
    ensures row { block_row W block.new place ≡ row.now }
    ensures others { (p : ℕ) → p ≢ place → block_row W block.new p ≡ block_row W block.old p }
{
    for column in 0..W {
        set_in_block(block, place, column, row[column]);
    }
}

/// Changes a cell of a block.
#[inline(always)]
pub fn set_in_block<const W: usize>(block: &mut Block<W>, place: usize, column: usize, value: Felt)
    requires place { place < 256 }
    requires column { column < W }
    ensures cell { slice_index (slice_index_or block.new column []) place ≡ value }
    ensures places { (p : ℕ) → p ≢ place → slice_index (slice_index_or block.new column []) p ≡ slice_index (slice_index_or block.old column []) p }
    ensures columns { (c : ℕ) → c ≢ column → slice_index_or block.new c [] ≡ slice_index_or block.old c [] }
{
    known_column(&block[column]);
    block[column][place] = value;
}

/// A cell of a block.
#[inline(always)]
pub fn cell_in_block<const W: usize>(block: &Block<W>, place: usize, column: usize) -> Felt
    requires place { place < 256 }
    requires column { column < W }
    ensures is { result ≡ slice_index (block_row W block.now place) column }
    ensures below { result < prime }
    ensures wide { length (block_row W block.now place) ≡ W }
{
    known_column(&block[column]);
    let element = block[column][place];
    let _ = element.value();
    element
}

/// The first cells of a column of a block.
pub fn column_of_block<const W: usize>(block: &Block<W>, column: usize, count: usize) -> &[Felt]
    requires count { count ≤ 256 }
    requires column { column < W }
    ensures is { result.now ≡ take count (slice_index_or block.now column []) }
    ensures long { length (slice_index_or block.now column []) ≡ 264 }
{
    let cells = &block[column];
    known_column(cells);
    &cells[..count]
}
