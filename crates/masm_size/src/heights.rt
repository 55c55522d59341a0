ghost use Rattle.std.specs.Prelude.{◌≡◌};
ghost use Rattle.masm_size.specs.Sizes.{is_joined, height_next, height_among, highest, row_height, row_view};

use crate::shape::{Outline, Rise};
use vm_field::MOST_NESTING;

// Whether the block at this place among so many is joined with another one on the next level.
fn is_joined(count: u32, index: u32) -> bool
    ensures { result ≡ is_joined count index }
{
    index.saturating_add(1) < count || count % 2 == 0
}

// How high a block of this height stands on the next level.
fn height_next(count: u32, index: u32, height: u32) -> u32
    ensures { result ≡ height_next count index height }
{
    if is_joined(count, index) {
        height.saturating_add(1).min(MOST_NESTING + 1)
    } else {
        height
    }
}

// How high a block of this height, at this place, comes to stand among so many that are joined.
#[tactic(auto, using(crate::proofs::Rows::levels))]
fn height_among(count: u32, index: u32, height: u32) -> u32
    ensures { result ≡ height_among count index height }
{
    let mut count = count;
    let mut index = index;
    let mut height = height;
    while count > 1 {
        height = height_next(count, index, height);
        index /= 2;
        count = count / 2 + count % 2;
    }
    height
}

// The greatest of these heights among so many blocks.
fn highest(count: u32, rises: &[Rise]) -> u32
    ensures { result ≡ highest count rises.now }
{
    let mut height = 0;
    for rise in rises {
        height = height.max(height_among(count, rise.index, rise.height));
    }
    height
}

/// The height of the block of a list of this outline, up to 1,025.
#[tactic(auto, using(crate::proofs::Rows::row_heights))]
pub fn row_height(outline: Outline, rises: &[Rise]) -> u32
    ensures { result ≡ row_height (row_view outline rises.now) rises.now }
{
    if rises.is_empty() {
        return 1;
    }
    let count = outline.whole.saturating_add(u32::from(outline.ends_in_run));
    highest(count, rises)
}
