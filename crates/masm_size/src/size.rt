ghost use Rattle.std.specs.Prelude.{◌≡◌, ◌+◌, ◌-◌, ◌^◌, ◌<◌, min, max, [], ◌∷◌, ◌++◌, length, nat_le, IfOk, OnOk};
ghost use Rattle.masm_instr.specs.Instructions.{HasLocal};
ghost use Rattle.masm_expand.specs.Expansion.{expansion};
ghost use Rattle.masm_size.specs.Sizes.{as_extent, size_view, part_view, row_view, limited, run_of, nothing, no_row, top_of, top_after, rises_behind, offset_of, row_both, both, times_size, extent_of, block_size};

use crate::heights::row_height;
use crate::shape::{Outline, Part, Rise, Size};
use masm_expand::expand;
use masm_flat::Extent;
use masm_instr::Instr;
use std::alloc::Global;
use vm_field::{MOST_NESTING, MOST_OPERATIONS, Memory};

// The outline of the empty list.
pub(crate) const NO_PARTS: Outline = Outline {
    whole: 0,
    starts_in_run: false,
    ends_in_run: false,
};

impl Size {
    /// The size of the empty list.
    pub fn nothing(alloc: Global) -> Size
        ensures { size_view result ≡ nothing }
    {
        Size {
            operations: 0,
            outline: NO_PARTS,
            rises: Vec::new(alloc),
        }
    }

    /// This size, lent.
    pub fn part(&self) -> Part<'_>
        ensures { part_view result ≡ size_view self.now }
    {
        Part {
            operations: self.operations,
            outline: self.outline,
            rises: self.rises.as_slice(),
        }
    }
}

// How many parts stand before those of a list that stands behind another; two runs that meet are one
// part.
fn offset_of(before: Outline, starts_in_run: bool) -> u32
    ensures { result ≡ offset_of (row_view before []) starts_in_run }
{
    before
        .whole
        .saturating_add(u32::from(before.ends_in_run && !starts_in_run))
}

// Whether a part is higher than the highest before it.
fn is_above(highest: Option<Rise>, rise: Rise) -> bool
    ensures { result ≡ nat_le (top_after highest) rise.height }
{
    match highest {
        Some(before) => before.height < rise.height,
        None => true,
    }
}

// Adds a part behind so many others, if it is higher than the highest of them.
fn add_rise(
    rises: &mut Vec<Rise>,
    highest: Option<Rise>,
    offset: u32,
    rise: Rise,
) -> Result<(), Memory>
    ensures { OnOk result (rises.new.items ≡ rises.old.items ++ rises_behind offset (top_after highest) (rise ∷ [])) }
{
    if !is_above(highest, rise) {
        return Ok(());
    }
    rises.push(Rise {
        index: offset.saturating_add(rise.index),
        height: rise.height,
    })?;
    Ok(())
}

// Adds those of some parts that are higher than all before them.
#[tactic(auto, using(crate::proofs::Measures::top_last))]
fn add_rises(rises: &mut Vec<Rise>, offset: u32, more: &[Rise]) -> Result<(), Memory>
    ensures { OnOk result (rises.new.items ≡ rises.old.items ++ rises_behind offset (top_of 0 rises.old.items) more.now) }
{
    let highest = rises.last().copied();
    for rise in more {
        add_rise(rises, highest, offset, *rise)?;
    }
    Ok(())
}

// A size with another behind it, where both have so many operations.
#[tactic(auto, unfolding(crate::specs::Sizes::row_both), using(crate::proofs::Measures::rows))]
fn joined(operations: u32, before: Size, more: Part) -> Result<Size, Memory>
    ensures { IfOk result (λ size. size_view size
        ≡ record { operations = operations; row = row_both (size_view before).row (part_view more.entry).row }) }
{
    if more.rises.is_empty() {
        return Ok(Size {
            operations,
            outline: before.outline,
            rises: before.rises,
        });
    }
    let offset = offset_of(before.outline, more.outline.starts_in_run);
    let starts_in_run = if before.rises.is_empty() {
        more.outline.starts_in_run
    } else {
        before.outline.starts_in_run
    };
    let mut rises = before.rises;
    add_rises(&mut rises, offset, more.rises)?;
    Ok(Size {
        operations,
        outline: Outline {
            whole: offset.saturating_add(more.outline.whole),
            starts_in_run,
            ends_in_run: more.outline.ends_in_run,
        },
        rises,
    })
}

// So many operations in no parts.
fn without_parts(operations: u32, size: Size) -> Size
    ensures { size_view result ≡ record { operations = operations; row = no_row } }
{
    let mut rises = size.rises;
    rises.clear();
    Size {
        operations,
        outline: NO_PARTS,
        rises,
    }
}

/// A size with another behind it.
#[tactic(auto, unfolding(crate::specs::Sizes::both))]
pub fn both(before: Size, more: Part) -> Result<Size, Memory>
    ensures { IfOk result (λ size. size_view size ≡ both (size_view before) (part_view more.entry)) }
{
    let operations = before.operations.saturating_add(more.operations);
    if operations > MOST_OPERATIONS {
        return Ok(without_parts(MOST_OPERATIONS + 1, before));
    }
    joined(operations, before, more)
}

/// The size of a list so many times.
#[tactic(auto, unfolding(crate::specs::Sizes::row_times), using(crate::proofs::Measures::many_times))]
pub fn times(count: u32, size: Size) -> Size
    ensures { size_view result ≡ times_size count (size_view size) }
{
    if count == 0 {
        return without_parts(0, size);
    }
    let operations = size.operations.saturating_mul(count);
    if operations > MOST_OPERATIONS {
        return without_parts(MOST_OPERATIONS + 1, size);
    }
    let step = offset_of(size.outline, size.outline.starts_in_run);
    Size {
        operations,
        outline: Outline {
            whole: size
                .outline
                .whole
                .saturating_add(step.saturating_mul(count - 1)),
            starts_in_run: size.outline.starts_in_run,
            ends_in_run: size.outline.ends_in_run,
        },
        rises: size.rises,
    }
}

// A size with so many operations in one part behind it.
fn both_limited(
    before: Size,
    operations: u32,
    outline: Outline,
    height: u32,
) -> Result<Size, Memory>
    ensures { IfOk result (λ size. size_view size
        ≡ both (size_view before)
        (limited operations (row_view outline (record { index = 0; height = height } ∷ [])))) }
{
    if operations > MOST_OPERATIONS {
        let operations = MOST_OPERATIONS + 1;
        return both(
            before,
            Part {
                operations,
                outline: NO_PARTS,
                rises: &[],
            },
        );
    }
    both(
        before,
        Part {
            operations,
            outline,
            rises: &[Rise { index: 0, height }],
        },
    )
}

/// A size with a block behind it.
pub fn with_block(before: Size, block: Extent) -> Result<Size, Memory>
    ensures { IfOk result (λ size. size_view size ≡ both (size_view before) (block_size block)) }
{
    let outline = Outline {
        whole: 1,
        starts_in_run: false,
        ends_in_run: false,
    };
    both_limited(before, block.operations, outline, block.height)
}

/// A size with so many operations behind it.
#[tactic(auto, using(crate::proofs::Measures::run_of_some))]
pub fn with_run(count: usize, before: Size) -> Result<Size, Memory>
    requires { 0 < count }
    ensures { IfOk result (λ size. size_view size ≡ both (size_view before) (run_of count)) }
{
    let operations = u32::try_from(count).unwrap_or(u32::MAX);
    let outline = Outline {
        whole: 0,
        starts_in_run: true,
        ends_in_run: true,
    };
    both_limited(before, operations, outline, 1)
}

/// A size with an instruction behind it, in a procedure of so many locals.
pub fn with_instr(alloc: Global, instr: &Instr, locals: u32, before: Size) -> Result<Size, Memory>
    requires { HasLocal instr.now locals }
    ensures { IfOk result (λ size. size_view size ≡ both (size_view before) (run_of (length (expansion instr.now.name instr.now.numbers locals)))) }
{
    let items = expand(alloc, instr, locals)?;
    with_run(items.len(), before)
}

/// The extent of the block of a list.
pub fn extent_of(list: Part) -> Extent
    ensures { result ≡ extent_of (part_view list.entry) }
{
    Extent {
        operations: list.operations.max(1),
        height: row_height(list.outline, list.rises),
    }
}

/// All operations of two extents, and the height of the higher one.
pub(crate) fn beside(first: Extent, second: Extent) -> Extent
    ensures operations { result.operations ≡ min (first.operations + second.operations) (2 ^ 32 - 1) }
    ensures height { result.height ≡ max first.height second.height }
{
    Extent {
        operations: first.operations.saturating_add(second.operations),
        height: first.height.max(second.height),
    }
}

/// The extent of a block with this child.
pub fn over(child: Extent) -> Extent
    ensures { result ≡ as_extent.call child }
{
    Extent {
        operations: child.operations.min(MOST_OPERATIONS + 1),
        height: child.height.saturating_add(1).min(MOST_NESTING + 1),
    }
}

/// The extent of a block with these children.
pub fn over_two(first: Extent, second: Extent) -> Extent
    ensures { result ≡ as_extent.split first second }
{
    Extent {
        operations: first
            .operations
            .saturating_add(second.operations)
            .min(MOST_OPERATIONS + 1),
        height: first
            .height
            .max(second.height)
            .saturating_add(1)
            .min(MOST_NESTING + 1),
    }
}
